// The calls of a congress that ask nothing of a book.
ghost use Rattle.std.specs.Prelude.{◌≡◌, ◌+◌, ◌<◌, cond};
ghost use Rattle.congress.specs.Calls.{Untouched, open_step, clock_step, issue_step, drop_step, find_answer};
ghost use Rattle.congress.specs.Entries.{entry_transaction};
ghost use Rattle.congress.specs.Meaning.{state, with_post};
ghost use Rattle.congress.specs.State.{fresh, short};
ghost use Rattle.congress.specs.Tables.{opened_for};
ghost use Rattle.records.specs.Finder.{first_in};

use super::refusals::Refusal;
use super::state::Congress;
use super::tables::{Console, Entry, Hall};
use records::{
    CONSOLES, LAST_SEQUENCE, LAST_STAMP, Message, Operation, Request, count_of, first_from, fits,
};

// At most so many places of a post are used.
pub(crate) const POST_PLACES: usize = 1024;

impl Console {
    // Its next transaction is open, at these halls; the answer is its sequence.
    fn begin_next(&mut self, halls: u8) -> u32
        requires { self.old.sequence < 1048576 }
        ensures console { self.new ≡ opened_for self.old halls }
        ensures sequence { result ≡ self.old.sequence + 1 }
    {
        self.busy = true;
        self.sequence += 1;
        self.halls = halls;
        self.replied = 0;
        self.sequence
    }
}

impl Congress {
    // A congress not yet opened: it has no halls.
    #[tactic(auto, unfolding(crate::specs::State::new_hall, crate::specs::State::new_halls, crate::specs::State::new_consoles))]
    pub fn new() -> Congress
        ensures { state result ≡ fresh 0 }
    {
        Congress {
            opened: 0,
            halls: [Hall::default(); 8],
            consoles: [Console::default(); 16],
            queue: [Entry::default(); 64],
            waiting: 0,
            count: 0,
        }
    }

    // Begins anew with 1 to 8 halls: no message is in the post, no console has issued anything.
    #[tactic(auto, unfolding(crate::specs::State::new_hall, crate::specs::State::new_halls, crate::specs::State::new_consoles))]
    pub fn open(&mut self, number: u8) -> Result<(), Refusal>
        ensures step { (result, state self.new) ≡ open_step (state self.old) number }
        ensures refused { Untouched result (state self.old) (state self.new) }
    {
        if !(1..=8).contains(&number) {
            return Err(Refusal::BadHalls);
        }
        self.opened = number;
        self.halls = [Hall::default(); 8];
        self.consoles = [Console::default(); 16];
        // no entry waits: what stood in the queue's places is left there
        self.waiting = 0;
        self.count = 0;
        Ok(())
    }

    // A post has places for as many messages as are counted.
    pub(crate) fn check_post(&self, post: &[Message]) -> Result<(), Refusal>
        ensures { result ≡ cond (short (with_post self.now post.now)) (Err Refusal.ShortPost) (Ok tt) }
    {
        if post.len() < self.count {
            return Err(Refusal::ShortPost);
        }
        Ok(())
    }

    // Opens a console's next transaction: requests go into the post, and its number is answered.
    // Console, class and halls are plain numbers, since a caller may give any.
    #[tactic(auto, using(crate::proofs::Sent::requests_count))]
    pub fn issue(
        &mut self,
        post: &mut [Message],
        console: u8,
        class: u8,
        halls: u8,
        operations: [Operation; 8],
    ) -> Result<u32, Refusal>
        ensures step { (result, with_post self.new post.new) ≡ issue_step (with_post self.old post.old) console class halls operations }
        ensures refused { Untouched result (with_post self.old post.old) (with_post self.new post.new) }
    {
        self.check_post(post)?;
        let old = *self
            .consoles
            .get(console as usize)
            .ok_or(Refusal::NotThere)?;
        if old.busy {
            return Err(Refusal::Busy);
        }
        if !fits(self.opened, class, halls) {
            return Err(Refusal::BadHalls);
        }
        if old.sequence >= LAST_SEQUENCE {
            return Err(Refusal::UsedUp);
        }
        if self.lacks_room(post, count_of(halls) as usize) {
            return Err(Refusal::NoRoom);
        }
        let sequence = self.consoles[console as usize].begin_next(halls);
        let transaction = sequence * u32::from(CONSOLES) + u32::from(console);
        let draft = Request {
            transaction,
            to: 0,
            class,
            halls,
            high: old.high,
            operation: operations[0],
        };
        self.send_requests(post, draft, &operations);
        Ok(transaction)
    }

    // Sets the clock of a hall, whose mode stays; a caller may give any number for one.
    #[tactic(auto, using(crate::proofs::Kept::kept_clock))]
    pub fn set_clock(&mut self, hall: u8, time: u64) -> Result<(), Refusal>
        ensures step { (result, state self.new) ≡ clock_step (state self.old) hall time }
        ensures refused { Untouched result (state self.old) (state self.new) }
    {
        if hall >= self.opened {
            return Err(Refusal::NotThere);
        }
        if time > LAST_STAMP {
            return Err(Refusal::TooLate);
        }
        self.halls[hall as usize].clock = time;
        Ok(())
    }

    // A message is lost: the last takes its place.
    pub fn drop_message(&mut self, post: &mut [Message], place: usize) -> Result<(), Refusal>
        ensures step { (result, with_post self.new post.new) ≡ drop_step (with_post self.old post.old) place }
        ensures refused { Untouched result (with_post self.old post.old) (with_post self.new post.new) }
    {
        self.check_post(post)?;
        if place >= self.count {
            return Err(Refusal::NotThere);
        }
        self.count -= 1;
        post[place] = post[self.count];
        Ok(())
    }

    // The first place in the post that bears a transaction number, or none.
    pub fn find(&self, post: &[Message], number: u32) -> Result<Option<usize>, Refusal>
        ensures { result ≡ find_answer (with_post self.now post.now) number }
    {
        self.check_post(post)?;
        Ok(first_from(&post[..self.count], 0, number))
    }

    // The place in the queue of the first entry that bears a transaction number, or none.
    pub fn first_waiting(&self, number: u32) -> Option<usize>
        ensures { result ≡ first_in entry_transaction number 0 (state self.now).entries }
    {
        first_from(&self.queue[..self.waiting], 0, number)
    }

    // How many halls are open.
    pub fn halls(&self) -> u8
        ensures { result ≡ (state self.now).opened }
    {
        self.opened
    }

    // How many messages are in the post.
    pub fn messages(&self) -> usize
        ensures { result ≡ (state self.now).count }
    {
        self.count
    }
}
