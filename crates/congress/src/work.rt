// Work: a hall does a part that waits.
ghost use Rattle.std.specs.Prelude.{◌≡◌, ◌<◌, IfSome};
ghost use Rattle.congress.specs.Calls.{Untouched};
ghost use Rattle.congress.specs.Meaning.{state, scene_of};
ghost use Rattle.congress.specs.Work.{raised, work_entry, work_on, work_step};

use super::outcomes::{Outcome, Report};
use super::refusals::Refusal;
use super::state::Congress;
use super::tables::Entry;
use book::Book;
use records::{Message, Status};

impl Congress {
    // A hall's last becomes the greater of itself and a stamp.
    #[tactic(auto, using(crate::proofs::Takes::kept_last))]
    fn raise_last(&mut self, hall: u8, stamp: u64)
        requires { hall < 8 }
        ensures state { state self.new ≡ raised (state self.old) hall stamp }
        ensures queue { self.new.waiting ≡ self.old.waiting }
    {
        let last = self.halls[hall as usize].last.max(stamp);
        self.halls[hall as usize].last = last;
    }

    // The entry at a place is done, and leaves.
    fn work_entry<B: Book>(
        &mut self,
        book: &mut B,
        post: &mut [Message],
        hall: u8,
        place: usize,
        entry: Entry,
    ) -> Result<Report, Refusal>
        requires exists { hall < 8 }
        requires inside { place < self.old.waiting }
        ensures { (result, scene_of self.new post.new (B.pages book.new)) ≡ work_entry B.model (scene_of self.old post.old (B.pages book.old)) hall place entry }
    {
        if self.lacks_room(post, 1) {
            return Err(Refusal::NoRoom);
        }
        self.raise_last(hall, entry.stamp);
        self.leave(hall, place);
        let answer = book.run(hall, entry.operation);
        self.send_reply(
            post,
            entry.transaction,
            hall,
            entry.stamp,
            u8::from(Status::Commit),
            answer,
        );
        Ok(Report {
            outcome: Outcome::Done,
            transaction: entry.transaction,
            hall,
            stamp: entry.stamp,
            answer,
        })
    }

    // The hall does the entry whose turn it is.
    fn work_on<B: Book>(
        &mut self,
        book: &mut B,
        post: &mut [Message],
        hall: u8,
        turn: Option<usize>,
    ) -> Result<Report, Refusal>
        requires exists { hall < 8 }
        requires inside { IfSome turn (λ i. i < self.old.waiting) }
        ensures { (result, scene_of self.new post.new (B.pages book.new)) ≡ work_on B.model (scene_of self.old post.old (B.pages book.old)) hall turn }
    {
        match turn {
            Some(place) => {
                let entry = self.entries()[place];
                self.work_entry(book, post, hall, place, entry)
            }
            None => Err(Refusal::NothingRuns),
        }
    }

    // A hall does the part whose turn it is; a caller may give any number for a hall.
    pub fn work<B: Book>(
        &mut self,
        book: &mut B,
        post: &mut [Message],
        hall: u8,
    ) -> Result<Report, Refusal>
        ensures step { (result, scene_of self.new post.new (B.pages book.new)) ≡ work_step B.model (scene_of self.old post.old (B.pages book.old)) hall }
        ensures refused { Untouched result (scene_of self.old post.old (B.pages book.old)) (scene_of self.new post.new (B.pages book.new)) }
    {
        self.check_post(post)?;
        if hall >= self.opened {
            return Err(Refusal::NotThere);
        }
        let turn = self.turn(hall);
        self.work_on(book, post, hall, turn)
    }
}
