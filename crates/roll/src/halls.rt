// The roll as a book: it answers for eight halls, and hands on to the book below what is not its own.
ghost use Rattle.std.specs.Prelude.{◌≡◌, ℕ, ◌<◌, ◌≢◌};
ghost use Rattle.std.specs.List.{slice_get};
ghost use Rattle.records.specs.Answers.{done_with};
ghost use Rattle.roll.specs.Roll.{filled, reply, after, roll_model, sheet_of, page_of, first_page};
ghost use Rattle.roll.specs.Laws.{own_page, roll_lawful};
ghost use Rattle.roll.specs.Table.{length_hall};

use super::LAYER;
use super::asking::{Ask, EMPTY, ENTRIES, is_of_roll, key_of_entry};
use super::refusals::{Refused, answer_with};
use super::tokens::Tokens;
use book::{Book, HALLS, refuse_hall};
use records::{Answer, Below, Operation};

// The tokens of the deputies, over the book that they work in.
#[derive(Drop)]
pub struct Roll<B> {
    tokens: Tokens,
    below: B,
}

impl<B: Book> Roll<B> {
    // The chief's token in every hall, and no deputies.
    pub fn new(chief: u32, below: B) -> Roll<B>
        ensures { (h : ℕ) → h < 8 → page_of B.pages result h ≡ first_page chief (B.pages below h) }
    {
        Roll {
            tokens: Tokens::new(chief),
            below,
        }
    }
}

// Well done: whether the entry was filled, by the token that it had.
fn tell(token: u32) -> Answer
    ensures { result ≡ done_with 3 (filled token) }
{
    Answer::done(LAYER, i32::from(token != EMPTY))
}

// What is asked at one of the eight halls.
impl<B: Book> Roll<B> {
    fn verdict_at(&self, hall: Below<HALLS>, op: Operation) -> Result<Answer, Refused>
        ensures { result ≡ reply B.model (sheet_of B.pages self.now hall) op }
    {
        let ask = self.tokens.admit(hall, op)?;
        Ok(match ask {
            Ask::Other => self.below.verdict(hall.get() as u8, op),
            Ask::Write(entry, _) | Ask::Read(entry) => tell(self.tokens.at(hall, entry)),
        })
    }

    fn run_at(&mut self, hall: Below<HALLS>, op: Operation) -> Result<Answer, Refused>
        ensures said { result ≡ reply B.model (sheet_of B.pages self.old hall) op }
        ensures here { sheet_of B.pages self.new hall ≡ after B.model (sheet_of B.pages self.old hall) op }
        ensures others { (h : ℕ) → (h ≢ hall) → sheet_of B.pages self.new h ≡ sheet_of B.pages self.old h }
    {
        let ask = self.tokens.admit(hall, op)?;
        Ok(match ask {
            Ask::Other => self.below.run(hall.get() as u8, op),
            Ask::Write(entry, token) => tell(self.tokens.put(hall, entry, token)),
            Ask::Read(entry) => tell(self.tokens.at(hall, entry)),
        })
    }

    // The 16 tokens come first, and then the page of the book below.
    fn number_at(&self, hall: Below<HALLS>, place: usize) -> Option<i64>
        ensures { result ≡ slice_get (page_of B.pages self.now hall) place }
    {
        match Below::new(place) {
            Some(entry) => Some(i64::from(self.tokens.at(hall, entry))),
            None => self.below.number(hall.get() as u8, place - ENTRIES),
        }
    }
}

impl<B: Book> Book for Roll<B> {
    ghost model = { roll_model B.Book.model };

    ghost pages = { page_of B.Book.pages };

    ghost owned = { λ b h.
        own_page B.Book.model B.Book.lawful (sheet_of B.Book.pages b h)
        (record { sixteen = length_hall b.tokens.tokens h; own = B.Book.owned b.below h }) };

    ghost lawful = { roll_lawful B.Book.model B.Book.lawful };

    fn keys(op: Operation) -> u64 {
        let grant = key_of_entry(u16::from(op.grant));
        if is_of_roll(op) {
            return grant | key_of_entry(op.a);
        }
        grant | B::keys(op)
    }

    fn verdict(&self, hall: u8, op: Operation) -> Answer {
        match Below::new(usize::from(hall)) {
            Some(place) => answer_with(self.verdict_at(place, op)),
            None => refuse_hall(LAYER, hall),
        }
    }

    #[tactic(auto, using(crate::specs::Pages::turned_roll))]
    fn run(&mut self, hall: u8, op: Operation) -> Answer {
        match Below::new(usize::from(hall)) {
            Some(place) => answer_with(self.run_at(place, op)),
            None => refuse_hall(LAYER, hall),
        }
    }

    fn number(&self, hall: u8, place: usize) -> Option<i64> {
        self.number_at(Below::new(usize::from(hall))?, place)
    }
}
