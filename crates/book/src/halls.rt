// A book made of eight pages, one for each hall: what a book does at one hall makes the book of them all.
ghost use Rattle.std.specs.Prelude.{◌≡◌, ℕ};
ghost use Rattle.std.specs.List.{slice_get};
ghost use Rattle.book.specs.Model.{Page, Model, Lawful};
ghost use Rattle.records.specs.Answers.{fault_at};
ghost use Rattle.book.specs.Halls.{page_at, all_own};

use super::{Book, HALLS, NO_HALL};
use records::{Answer, Below, Operation};

// A book's part at one hall: the questions of a book, on one page.
pub trait Hall {
    // what its operations mean on its page
    ghost model: { Model };

    ghost page: { Self → Page };

    // the page of a new book
    ghost first: { Page };

    // the book's number in its answers
    const LAYER: u8;

    ghost LAYER: { ℕ };

    fn new() -> Self
        ensures { page result ≡ first };

    // The keys that an operation needs, bit k for key k.
    fn keys(op: Operation) -> u64
        ensures { result ≡ model.keys op };

    // What `run` would answer.
    fn verdict(&self, op: Operation) -> Answer
        ensures { result ≡ model.answer (page self.now) op };

    fn run(&mut self, op: Operation) -> Answer
        ensures answer { result ≡ model.answer (page self.old) op }
        ensures page { page self.new ≡ model.next (page self.old) op };

    // The number at a place of its page, if the page goes so far.
    fn number(&self, place: usize) -> Option<i64>
        ensures { result ≡ slice_get (page self.now) place };

    ghost layered: { LAYER ≡ model.layer };

    ghost owned: { (s : Self) → model.own (page s) };

    ghost first_owned: { model.own first };

    ghost lawful: { Lawful model };
}

// A book with a part for each hall.
#[derive(Drop)]
pub struct Halls<H> {
    halls: [H; HALLS],
}

impl<H: Hall + Copy> Halls<H> {
    // The first page in every hall.
    pub fn new() -> Halls<H>
        ensures { (h : ℕ) → page_at H.page H.first result.halls h ≡ H.first }
    {
        Halls {
            halls: [H::new(); HALLS],
        }
    }
}

// The answer of the book with this layer where there is no such hall.
pub fn refuse_hall(layer: u8, hall: u8) -> Answer
    ensures { result ≡ fault_at layer NO_HALL hall }
{
    Answer::fault(layer, NO_HALL, u16::from(hall))
}

impl<H: Hall> Book for Halls<H> {
    ghost model = { H.model };

    ghost pages = { λ b. page_at H.page H.first b.halls };

    ghost owned = { λ b h. all_own H.model.own H.page H.first b.halls h H.owned H.first_owned };

    ghost lawful = { H.lawful };

    fn keys(op: Operation) -> u64 {
        H::keys(op)
    }

    fn verdict(&self, hall: u8, op: Operation) -> Answer {
        match Below::<HALLS>::new(usize::from(hall)) {
            None => refuse_hall(H::LAYER, hall),
            Some(place) => self.halls[place.get()].verdict(op),
        }
    }

    fn run(&mut self, hall: u8, op: Operation) -> Answer {
        match Below::<HALLS>::new(usize::from(hall)) {
            None => refuse_hall(H::LAYER, hall),
            Some(place) => self.halls[place.get()].run(op),
        }
    }

    fn number(&self, hall: u8, place: usize) -> Option<i64> {
        let hall = Below::<HALLS>::new(usize::from(hall))?;
        self.halls[hall.get()].number(place)
    }
}
