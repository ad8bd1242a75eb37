// Deliver, of a vote; and how an entry leaves.
ghost use Rattle.std.specs.Prelude.{◌≡◌, ℕ, ◌<◌, List, Ok, true, slice_set};
ghost use Rattle.book.specs.Model.{Page};
ghost use Rattle.congress.specs.Kept.{kept};
ghost use Rattle.congress.specs.Meaning.{state, scene_of};
ghost use Rattle.congress.specs.Queue.{entry_in, without};
ghost use Rattle.congress.specs.State.{hall_at, with_hall, with_entries};
ghost use Rattle.congress.specs.Votes.{settled, leaving, counts, counted, counted_as, count_vote, remove_entry, vote_on, vote_step};
ghost use Rattle.records.specs.declared.messages.Message.{Message};

use super::outcomes::{Outcome, Report, no_answer};
use super::refusals::Refusal;
use super::replies::is_commit;
use super::state::Congress;
use super::tables::{Entry, Mode};
use records::{Message, Vote, has};

impl Entry {
    // Whether a vote counts: it comes from a hall that is named and has not voted.
    fn counts(&self, from: u8) -> bool
        ensures { result ≡ counts self.now from }
    {
        has(self.halls, from) && !has(self.votes, from)
    }

    // With a commit vote, and the greater stamp.
    fn counted(mut self, vote: Vote) -> Entry
        requires { vote.from < 8 }
        ensures { result ≡ counted self vote }
    {
        self.votes |= 1 << vote.from;
        self.stamp = self.stamp.max(vote.stamp);
        self
    }

    // What its vote came to.
    fn counted_as(&self) -> Outcome
        ensures { result ≡ counted_as self.now }
    {
        if self.is_ready() {
            Outcome::Readied
        } else {
            Outcome::Counted
        }
    }
}

impl Congress {
    // One entry becomes another.
    #[tactic(auto, using(crate::proofs::Memory::set_in, crate::proofs::Memory::kept_set_in))]
    fn set_entry(&mut self, place: usize, entry: Entry)
        requires inside { place < self.old.waiting }
        requires keeps { kept (state self.old).halls (slice_set (state self.old).entries place entry) ≡ true }
        ensures { state self.new ≡ with_entries (state self.old) (slice_set (state self.old).entries place entry) }
    {
        self.queue[place] = entry;
    }

    // An entry is gone, and the last takes its place.
    #[tactic(auto, using(crate::proofs::Memory::removed_in, crate::proofs::Memory::kept_removed_in))]
    fn remove(&mut self, place: usize)
        requires { place < self.old.waiting }
        ensures { state self.new ≡ with_entries (state self.old) (without (state self.old).entries place) }
    {
        self.waiting -= 1;
        self.queue[place] = self.queue[self.waiting];
    }

    // A hall without entries is back in timestamp mode.
    #[tactic(auto, using(crate::proofs::Memory::kept_settles, crate::proofs::Memory::settled_stays))]
    fn settle(&mut self, hall: u8)
        requires { hall < 8 }
        ensures { state self.new ≡ with_hall (state self.old) hall (settled (state self.old).entries hall (hall_at (state self.old) hall)) }
    {
        // the queue need not be looked through where the mode can only stay
        if self.halls[hall as usize].is_locking() && !self.has_entries(hall) {
            self.halls[hall as usize].mode = Mode::Timestamp;
        }
    }

    // An entry leaves its hall.
    pub(crate) fn leave(&mut self, hall: u8, place: usize)
        requires exists { hall < 8 }
        requires inside { place < self.old.waiting }
        ensures { state self.new ≡ leaving (state self.old) hall place }
    {
        self.remove(place);
        self.settle(hall);
    }
}

impl Congress {
    // A commit vote is in the entry, which has become this.
    fn count_vote(&mut self, vote: Vote, place: usize, entry: Entry) -> Report
        requires inside { place < self.old.waiting }
        requires keeps { kept (state self.old).halls (slice_set (state self.old).entries place entry) ≡ true }
        ensures { (post : List Message) (pages : ℕ → Page) → (Ok result, scene_of self.new post pages) ≡ count_vote (scene_of self.old post pages) vote place entry }
    {
        self.set_entry(place, entry);
        Report {
            outcome: entry.counted_as(),
            transaction: vote.transaction,
            hall: vote.to,
            stamp: entry.stamp,
            answer: no_answer(),
        }
    }

    // Any other vote removes the entry, which replies with its own stamp.
    fn remove_entry(
        &mut self,
        post: &mut [Message],
        vote: Vote,
        place: usize,
        entry: Entry,
    ) -> Result<Report, Refusal>
        requires exists { vote.to < 8 }
        requires inside { place < self.old.waiting }
        ensures { (pages : ℕ → Page) → (result, scene_of self.new post.new pages) ≡ remove_entry (scene_of self.old post.old pages) vote place entry }
    {
        if self.lacks_room(post, 1) {
            return Err(Refusal::NoRoom);
        }
        self.leave(vote.to, place);
        self.send_reply(
            post,
            vote.transaction,
            vote.to,
            entry.stamp,
            vote.status,
            no_answer(),
        );
        Ok(Report {
            outcome: Outcome::Removed,
            transaction: vote.transaction,
            hall: vote.to,
            stamp: entry.stamp,
            answer: no_answer(),
        })
    }

    // A vote meets this entry, at this place.
    #[tactic(auto, using(crate::proofs::Memory::kept_counts))]
    fn vote_on(
        &mut self,
        post: &mut [Message],
        vote: Vote,
        place: usize,
        entry: Entry,
    ) -> Result<Report, Refusal>
        requires exists { vote.to < 8 }
        requires from { vote.from < 8 }
        requires inside { place < self.old.waiting }
        requires entry { entry_in (state self.old).entries place ≡ entry }
        ensures { (pages : ℕ → Page) → (result, scene_of self.new post.new pages) ≡ vote_on (scene_of self.old post.old pages) vote place entry }
    {
        if !entry.counts(vote.from) {
            return Ok(Report::default());
        }
        if is_commit(vote.status) {
            return Ok(self.count_vote(vote, place, entry.counted(vote)));
        }
        self.remove_entry(post, vote, place, entry)
    }

    // A vote of one hall comes to another; both are known to exist.
    pub(crate) fn take_vote(&mut self, post: &mut [Message], vote: Vote) -> Result<Report, Refusal>
        requires exists { vote.to < 8 }
        requires from { vote.from < 8 }
        ensures { (pages : ℕ → Page) → (result, scene_of self.new post.new pages) ≡ vote_step (scene_of self.old post.old pages) vote }
    {
        match self.place_of(vote.to, vote.transaction) {
            Some(place) => {
                let entry = self.entries()[place];
                self.vote_on(post, vote, place, entry)
            }
            None => Ok(Report::default()),
        }
    }
}
