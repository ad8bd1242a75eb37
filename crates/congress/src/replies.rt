// Deliver, of a reply.
ghost use Rattle.std.specs.Prelude.{◌≡◌, ℕ, ◌<◌, List, Ok, ◌==◌};
ghost use Rattle.book.specs.Model.{Page};
ghost use Rattle.congress.specs.Meaning.{scene_of};
ghost use Rattle.congress.specs.Replies.{awaits, complete, replies, outcome_of, answered, reply_step};
ghost use Rattle.records.specs.Classes.{status_number};
ghost use Rattle.records.specs.declared.classes.Status.TheVariants.{Commit};
ghost use Rattle.records.specs.declared.messages.Message.{Message};

use super::outcomes::{Outcome, Report};
use super::state::Congress;
use super::tables::Console;
use records::{Reply, Status, console_of, has, sequence_of};

pub(crate) fn is_commit(status: u8) -> bool
    ensures { result ≡ (status == status_number Commit) }
{
    status == u8::from(Status::Commit)
}

impl Console {
    // Whether it waits for this reply: of its open transaction, from a named hall that has not replied.
    fn awaits(&self, reply: &Reply) -> bool
        ensures { result ≡ awaits self.now reply.now }
    {
        self.busy
            && self.sequence == sequence_of(reply.transaction)
            && has(self.halls, reply.from)
            && !has(self.replied, reply.from)
    }

    // The halls that have replied, with the one that replies now.
    fn replies(&self, reply: &Reply) -> u8
        requires { reply.now.from < 8 }
        ensures { result ≡ replies self.now reply.now }
    {
        self.replied | 1 << reply.from
    }

    // Whether every named hall has replied then.
    fn is_complete(&self, reply: &Reply) -> bool
        requires { reply.now.from < 8 }
        ensures { result ≡ complete self.now reply.now }
    {
        self.replies(reply) & self.halls == self.halls
    }

    fn outcome_of(&self, reply: &Reply) -> Outcome
        requires { reply.now.from < 8 }
        ensures { result ≡ outcome_of self.now reply.now }
    {
        if !is_commit(reply.status) {
            return Outcome::Freed;
        }
        if self.is_complete(reply) {
            Outcome::Confirmed
        } else {
            Outcome::Replied
        }
    }

    // Only a commit that is not the last leaves the transaction open.
    fn take(&mut self, reply: &Reply)
        requires { reply.now.from < 8 }
        ensures { self.new ≡ answered self.old reply.now }
    {
        self.busy = is_commit(reply.status) && !self.is_complete(reply);
        self.replied = self.replies(reply);
        self.high = self.high.max(reply.stamp);
    }
}

impl Congress {
    // A console takes a reply that it waits for; it and its hall are known to exist.
    pub(crate) fn take_reply(&mut self, reply: Reply) -> Report
        requires { reply.from < 8 }
        ensures { (post : List Message) (pages : ℕ → Page) → (Ok result, scene_of self.new post pages) ≡ reply_step (scene_of self.old post pages) reply }
    {
        let console = &mut self.consoles[console_of(reply.transaction) as usize];
        if !console.awaits(&reply) {
            return Report::default();
        }
        let outcome = console.outcome_of(&reply);
        console.take(&reply);
        Report {
            outcome,
            transaction: reply.transaction,
            hall: reply.from,
            stamp: reply.stamp,
            answer: reply.answer,
        }
    }
}
