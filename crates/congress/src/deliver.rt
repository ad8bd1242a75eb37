// Deliver.
ghost use Rattle.std.specs.Prelude.{◌≡◌};
ghost use Rattle.congress.specs.Calls.{Untouched};
ghost use Rattle.congress.specs.Deliver.{message_step, deliver_step};
ghost use Rattle.congress.specs.Meaning.{scene_of};

use super::outcomes::Report;
use super::refusals::Refusal;
use super::state::Congress;
use book::Book;
use records::{Message, is_lawful};

impl Congress {
    // A message comes to its hall or console; an unlawful one is passed over.
    fn take_message<B: Book>(
        &mut self,
        book: &mut B,
        post: &mut [Message],
        message: Message,
    ) -> Result<Report, Refusal>
        ensures { (result, scene_of self.new post.new (B.pages book.new)) ≡ message_step B.model (scene_of self.old post.old (B.pages book.old)) message }
    {
        if !is_lawful(self.opened, message) {
            return Ok(Report::default());
        }
        match message {
            Message::Request(request) => self.take_request(book, post, request),
            Message::Vote(vote) => self.take_vote(post, vote),
            Message::Reply(reply) => Ok(self.take_reply(reply)),
        }
    }

    // Delivers the message at a place of the post, where it stays; a caller may give any number for a place.
    pub fn deliver<B: Book>(
        &mut self,
        book: &mut B,
        post: &mut [Message],
        place: usize,
    ) -> Result<Report, Refusal>
        ensures step { (result, scene_of self.new post.new (B.pages book.new)) ≡ deliver_step B.model (scene_of self.old post.old (B.pages book.old)) place }
        ensures refused { Untouched result (scene_of self.old post.old (B.pages book.old)) (scene_of self.new post.new (B.pages book.new)) }
    {
        self.check_post(post)?;
        if place >= self.count {
            return Err(Refusal::NotThere);
        }
        let message = post[place];
        self.take_message(book, post, message)
    }
}
