// What a book is: three questions about operations on the pages of eight halls, the numbers of a page, and the law that every book
// obeys.
#![tactic(auto)]

ghost use Rattle.std.specs.Prelude.{◌≡◌, ℕ, true, ◌==◌, bit_and};
ghost use Rattle.book.specs.Apart.{Pass, apart};
ghost use Rattle.book.specs.Model.{Page, Model, Lawful, told, turned, number_at};

mod halls;

pub use halls::{Hall, Halls, refuse_hall};
use records::{Answer, Operation};

// Halls are numbered from 0.
pub const HALLS: usize = 8;

// The cause of the fault that a hall above 7 gets.
pub const NO_HALL: u8 = 255;

pub trait Book {
    // what its operations mean on one page
    ghost model: { Model };

    // the page of each hall
    ghost pages: { Self → ℕ → Page };

    // The keys that an operation needs, bit k for key k.
    fn keys(op: Operation) -> u64
        ensures { result ≡ model.keys op };

    // What `run` would answer.
    fn verdict(&self, hall: u8, op: Operation) -> Answer
        ensures { result ≡ told model (pages self.now) hall op };

    // Does the operation at a hall.
    fn run(&mut self, hall: u8, op: Operation) -> Answer
        ensures answer { result ≡ told model (pages self.old) hall op }
        ensures pages { pages self.new ≡ turned model (pages self.old) hall op };

    // The number at a place of a hall's page, if the hall is one of the eight and its page goes so far.
    fn number(&self, hall: u8, place: usize) -> Option<i64>
        ensures { result ≡ number_at (pages self.now) hall place };

    ghost owned: { (b : Self) (h : ℕ) → model.own (pages b h) };

    ghost lawful: { Lawful model };
}

fn share_no_key(x: u64, y: u64) -> bool
    ensures { result ≡ (bit_and x y == 0) }
{
    x & y == 0
}

// Whether two operations may pass each other: they then reach the same page in either order, with the same answers.
#[tactic(auto, using(crate::proofs::Apart::apart_pass))]
pub fn may_pass<B: Book>(o: Operation, q: Operation) -> bool
    ensures value { result ≡ apart B.model o q }
    ensures passes { result ≡ true → (p : Page) → B.model.own p → Pass B.model p o q }
{
    share_no_key(B::keys(o), B::keys(q))
}
