// Deliver, of a request: what its hall then holds, what it sends and what is told.
ghost use Rattle.std.specs.Prelude.{◌≡◌, ℕ, ◌<◌, ◌≤◌, max, true, false, cond, ◌&&◌, Err, [], ◌∷◌, ◌++◌, Ok, length, slice_set};
ghost use Rattle.book.specs.Model.{Page};
ghost use Rattle.congress.specs.Kept.{locks, kept};
ghost use Rattle.congress.specs.Meaning.{state, with_post, scene_of};
ghost use Rattle.congress.specs.Requests.{recorded, locked_for, entry_for, falling, sent, fallen, taken_as, places_for, take_as, fate, needs_entry, full, is_old, request_step};
ghost use Rattle.congress.specs.State.{Scene, hall_at, with_hall, with_entries, lacks_room};
ghost use Rattle.congress.specs.Tables.{with_last};
ghost use Rattle.congress.specs.declared.fates.Fate.TheVariants.{Enters, Runs};
ghost use Rattle.records.specs.Halls.{names};

use super::congress::POST_PLACES;
use super::fates::Fate;
use super::outcomes::{Outcome, Report, no_answer};
use super::refusals::Refusal;
use super::requests::class_in;
use super::state::Congress;
use super::tables::{Entry, Hall, Mode};
use book::Book;
use records::{
    Answer, Class, Message, Request, Status, console_of, count_of, next_stamp, sequence_of,
};

impl Hall {
    // It records a transaction's sequence.
    fn record(&mut self, transaction: u32)
        ensures { self.new ≡ recorded self.old transaction }
    {
        self.taken[console_of(transaction) as usize] = sequence_of(transaction);
    }

    // A coordinated part that waits keeps it in locking mode.
    fn lock_for(&mut self, class: Class)
        ensures { self.new ≡ locked_for self.old class }
    {
        if class == Class::Coordinated {
            self.mode = Mode::Locking;
        }
    }

    // Whether it is in locking mode once it keeps a part of this class.
    fn locks_for(&self, class: Class) -> bool
        ensures { result ≡ locks (locked_for self.now class).mode }
    {
        class == Class::Coordinated || self.is_locking()
    }
}

// A part that waits, with the vote of its own hall; keys are held in locking mode alone.
fn entry_for<B: Book>(hall: Hall, request: Request, stamp: u64) -> Entry
    requires { request.to < 8 }
    ensures entry { result ≡ entry_for B.model hall request stamp }
    ensures wide { length hall.taken ≡ 16 }
{
    let class = class_in(&request);
    let keys = if hall.locks_for(class) {
        B::keys(request.operation)
    } else {
        0
    };
    Entry {
        hall: request.to,
        transaction: request.transaction,
        class,
        halls: request.halls,
        votes: 1 << request.to,
        stamp,
        keys,
        operation: request.operation,
    }
}

impl Congress {
    // A hall records a transaction's sequence, which is new.
    #[tactic(auto, using(crate::proofs::Takes::kept_records))]
    fn record(&mut self, hall: u8, transaction: u32)
        requires exists { hall < 8 }
        requires new { is_old (hall_at (state self.old) hall) transaction ≡ false }
        ensures { state self.new ≡ with_hall (state self.old) hall (recorded (hall_at (state self.old) hall) transaction) }
    {
        self.halls[hall as usize].record(transaction);
    }

    // And has done a part with this stamp.
    #[tactic(auto, using(crate::proofs::Takes::kept_records))]
    fn record_done(&mut self, hall: u8, transaction: u32, stamp: u64)
        requires exists { hall < 8 }
        requires new { is_old (hall_at (state self.old) hall) transaction ≡ false }
        ensures { state self.new ≡ with_hall (state self.old) hall (with_last (recorded (hall_at (state self.old) hall) transaction) (max (hall_at (state self.old) hall).last stamp)) }
    {
        let hall = &mut self.halls[hall as usize];
        hall.record(transaction);
        hall.last = hall.last.max(stamp);
    }

    // An entry comes to the end of the queue, and its hall records its sequence.
    fn push(&mut self, entry: Entry)
        requires exists { entry.hall < 8 }
        requires room { self.old.waiting < 64 }
        requires keeps { kept (slice_set (state self.old).halls entry.hall (locked_for (recorded (hall_at (state self.old) entry.hall) entry.transaction) entry.class)) ((state self.old).entries ++ entry ∷ []) ≡ true }
        ensures { state self.new ≡ with_entries (with_hall (state self.old) entry.hall (locked_for (recorded (hall_at (state self.old) entry.hall) entry.transaction) entry.class)) ((state self.old).entries ++ entry ∷ []) }
    {
        let hall = &mut self.halls[entry.hall as usize];
        hall.record(entry.transaction);
        hall.lock_for(entry.class);
        self.queue[self.waiting] = entry;
        self.waiting += 1;
    }
}

// How many messages a request that becomes this sends.
#[tactic(auto, using(crate::proofs::Takes::some_named, crate::proofs::Takes::entering_count, crate::proofs::Takes::falling_count))]
fn needed<B: Book>(request: Request, fate: Fate) -> usize
    requires { names request.halls request.to ≡ true }
    ensures number { (s : Scene) (stamp : ℕ) → result ≡ length (sent B.model s request stamp fate) }
    ensures few { result ≤ 8 }
{
    match fate {
        Fate::Enters => count_of(request.halls) as usize - 1,
        Fate::Runs => 1,
        Fate::Conflicts => count_of(request.halls) as usize,
        Fate::Aborts(_) => count_of(request.halls) as usize,
    }
}

impl Congress {
    // The part waits in the queue, and its hall votes commit.
    #[tactic(auto, using(crate::proofs::Takes::kept_enters))]
    fn enter<B: Book>(
        &mut self,
        book: &B,
        post: &mut [Message],
        request: Request,
        stamp: u64,
    ) -> Report
        requires exists { request.to < 8 }
        requires named { names request.halls request.to ≡ true }
        requires new { is_old (hall_at (state self.old) request.to) request.transaction ≡ false }
        requires enters { needs_entry (fate B.model (scene_of self.old post.old (B.pages book.now)) request) ≡ true }
        requires place { self.old.waiting < 64 }
        requires room { lacks_room (with_post self.old post.old) (length (sent B.model (scene_of self.old post.old (B.pages book.now)) request stamp Enters)) ≡ false }
        ensures { (Ok result, scene_of self.new post.new (B.pages book.now)) ≡ taken_as B.model (scene_of self.old post.old (B.pages book.now)) request stamp Enters }
    {
        let hall = self.halls[request.to as usize];
        let entry = entry_for::<B>(hall, request, stamp);
        self.push(entry);
        self.send_votes(
            post,
            request.transaction,
            request.to,
            request.halls,
            stamp,
            u8::from(Status::Commit),
        );
        Report {
            outcome: Outcome::Entered,
            transaction: request.transaction,
            hall: request.to,
            stamp,
            answer: no_answer(),
        }
    }

    // A single is done at once.
    fn run_at_once<B: Book>(
        &mut self,
        book: &mut B,
        post: &mut [Message],
        request: Request,
        stamp: u64,
    ) -> Report
        requires exists { request.to < 8 }
        requires new { is_old (hall_at (state self.old) request.to) request.transaction ≡ false }
        requires room { lacks_room (with_post self.old post.old) 1 ≡ false }
        ensures { (Ok result, scene_of self.new post.new (B.pages book.new)) ≡ taken_as B.model (scene_of self.old post.old (B.pages book.old)) request stamp Runs }
    {
        self.record_done(request.to, request.transaction, stamp);
        let answer = book.run(request.to, request.operation);
        self.send_reply(
            post,
            request.transaction,
            request.to,
            stamp,
            u8::from(Status::Commit),
            answer,
        );
        Report {
            outcome: Outcome::DoneAtOnce,
            transaction: request.transaction,
            hall: request.to,
            stamp,
            answer,
        }
    }

    // The part falls: its hall votes so, and replies with this answer.
    #[tactic(auto, using(crate::proofs::Sent::posting_push))]
    fn fall(
        &mut self,
        post: &mut [Message],
        request: Request,
        stamp: u64,
        status: Status,
        outcome: Outcome,
        answer: Answer,
    ) -> Report
        requires exists { request.to < 8 }
        requires new { is_old (hall_at (state self.old) request.to) request.transaction ≡ false }
        requires room { lacks_room (with_post self.old post.old) (length (falling request stamp status answer)) ≡ false }
        ensures { (pages : ℕ → Page) → (Ok result, scene_of self.new post.new pages) ≡ fallen (scene_of self.old post.old pages) request stamp status outcome answer }
    {
        self.record(request.to, request.transaction);
        let number = u8::from(status);
        self.send_votes(
            post,
            request.transaction,
            request.to,
            request.halls,
            stamp,
            number,
        );
        self.send_reply(post, request.transaction, request.to, stamp, number, answer);
        Report {
            outcome,
            transaction: request.transaction,
            hall: request.to,
            stamp,
            answer,
        }
    }
}

impl Congress {
    // Whether the post lacks places for so many messages more.
    pub(crate) fn lacks_room(&self, post: &[Message], messages: usize) -> bool
        requires { messages ≤ 8 }
        ensures { result ≡ lacks_room (with_post self.now post.now) messages }
    {
        post.len().min(POST_PLACES) < self.count + messages
    }

    // Whether there is a place for the entry of a request that becomes this, and room for what it sends.
    fn check_places<B: Book>(
        &self,
        book: &B,
        post: &[Message],
        request: Request,
        stamp: u64,
        fate: Fate,
    ) -> Result<(), Refusal>
        requires { names request.halls request.to ≡ true }
        ensures { result ≡ places_for B.model (scene_of self.now post.now (B.pages book.now)) request stamp fate }
    {
        if matches!(fate, Fate::Enters) && self.is_full() {
            return Err(Refusal::QueueFull);
        }
        if self.lacks_room(post, needed::<B>(request, fate)) {
            return Err(Refusal::NoRoom);
        }
        Ok(())
    }

    // A request that a hall takes becomes this; there is room for it.
    fn carry_out<B: Book>(
        &mut self,
        book: &mut B,
        post: &mut [Message],
        request: Request,
        stamp: u64,
        found: Fate,
    ) -> Report
        requires exists { request.to < 8 }
        requires named { names request.halls request.to ≡ true }
        requires new { is_old (hall_at (state self.old) request.to) request.transaction ≡ false }
        requires fate { found ≡ fate B.model (scene_of self.old post.old (B.pages book.old)) request }
        requires place { (needs_entry found && full (scene_of self.old post.old (B.pages book.old))) ≡ false }
        requires room { lacks_room (with_post self.old post.old) (length (sent B.model (scene_of self.old post.old (B.pages book.old)) request stamp found)) ≡ false }
        ensures { (Ok result, scene_of self.new post.new (B.pages book.new)) ≡ taken_as B.model (scene_of self.old post.old (B.pages book.old)) request stamp found }
    {
        match found {
            Fate::Enters => self.enter(book, post, request, stamp),
            Fate::Runs => self.run_at_once(book, post, request, stamp),
            Fate::Conflicts => self.fall(
                post,
                request,
                stamp,
                Status::Conflict,
                Outcome::MetConflict,
                no_answer(),
            ),
            Fate::Aborts(answer) => self.fall(
                post,
                request,
                stamp,
                Status::Abort,
                Outcome::Aborted,
                answer,
            ),
        }
    }

    // A hall takes a request with this stamp.
    fn take_as<B: Book>(
        &mut self,
        book: &mut B,
        post: &mut [Message],
        request: Request,
        stamp: u64,
    ) -> Result<Report, Refusal>
        requires exists { request.to < 8 }
        requires named { names request.halls request.to ≡ true }
        requires new { is_old (hall_at (state self.old) request.to) request.transaction ≡ false }
        ensures { (result, scene_of self.new post.new (B.pages book.new)) ≡ take_as B.model (scene_of self.old post.old (B.pages book.old)) request stamp (fate B.model (scene_of self.old post.old (B.pages book.old)) request) }
    {
        let fate = self.fate(book, &request);
        self.check_places(book, post, request, stamp, fate)?;
        Ok(self.carry_out(book, post, request, stamp, fate))
    }

    // A hall takes a request, unless it has taken it or a later one of the console; the hall is known to exist and be named.
    pub(crate) fn take_request<B: Book>(
        &mut self,
        book: &mut B,
        post: &mut [Message],
        request: Request,
    ) -> Result<Report, Refusal>
        requires exists { request.to < 8 }
        requires named { names request.halls request.to ≡ true }
        ensures { (result, scene_of self.new post.new (B.pages book.new)) ≡ request_step B.model (scene_of self.old post.old (B.pages book.old)) request }
    {
        let hall = &self.halls[request.to as usize];
        if hall.is_old(request.transaction) {
            return Ok(Report::default());
        }
        let stamp = next_stamp(request.high, hall.last, hall.clock).ok_or(Refusal::TooLate)?;
        self.take_as(book, post, request, stamp)
    }
}
