// The tokens of all eight halls.
ghost use Rattle.std.specs.Prelude.{◌≡◌, ℕ, ◌+◌, ◌*◌, ◌<◌, ◌≢◌, slice_set};
ghost use Rattle.roll.specs.Roll.{entry as entry_of, stands, admitted, hall_tokens, first_tokens};

use super::asking::{Ask, EMPTY, ENTRIES, ask_of};
use super::refusals::{Refusal, Refused};
use book::HALLS;
use records::{Below, Operation};

// Entry g of hall h lies at h * 16 + g.
// One plain struct made as [0; 128], and no table of halls: docs/DECISIONS.md fixes this form.
#[derive(Drop)]
pub struct Tokens {
    tokens: [u32; 128],
}

fn place_of(hall: Below<HALLS>, entry: Below<ENTRIES>) -> usize
    ensures value { result ≡ hall * 16 + entry }
    ensures inside { result < 128 }
{
    hall.get() * ENTRIES + entry.get()
}

impl Tokens {
    // The chief's token in every hall, and no deputies.
    pub(crate) fn new(chief: u32) -> Tokens
        ensures { (h : ℕ) → h < 8 → hall_tokens result.tokens h ≡ first_tokens chief }
    {
        let mut tokens = [0; 128];
        // by index: `iter_mut` leaves nothing known of the array, and `place_of` wants a `Below` for each number
        for hall in 0..HALLS {
            tokens[hall * ENTRIES] = chief;
        }
        Tokens { tokens }
    }

    #[tactic(auto, using(crate::specs::Table::entry_hall))]
    pub(crate) fn at(&self, hall: Below<HALLS>, entry: Below<ENTRIES>) -> u32
        ensures { result ≡ entry_of (hall_tokens self.now.tokens hall) entry }
    {
        self.tokens[place_of(hall, entry)]
    }

    // Puts a token at an entry, and returns the one that was there.
    #[tactic(auto, using(crate::specs::Table::entry_hall, crate::specs::Table::put_here, crate::specs::Table::put_others))]
    pub(crate) fn put(&mut self, hall: Below<HALLS>, entry: Below<ENTRIES>, token: u32) -> u32
        ensures before { result ≡ entry_of (hall_tokens self.old.tokens hall) entry }
        ensures here { hall_tokens self.new.tokens hall ≡ slice_set (hall_tokens self.old.tokens hall) entry token }
        ensures others { (h : ℕ) → (h ≢ hall) → hall_tokens self.new.tokens h ≡ hall_tokens self.old.tokens h }
    {
        std::mem::replace(&mut self.tokens[place_of(hall, entry)], token)
    }

    fn is_standing(&self, hall: Below<HALLS>, op: Operation) -> bool
        ensures { result ≡ stands (hall_tokens self.now.tokens hall) op }
    {
        match Below::new(usize::from(op.grant)) {
            Some(grant) if op.token != EMPTY => self.at(hall, grant) == op.token,
            _ => false,
        }
    }

    // What an operation asks at a hall: nothing, where its grant does not stand.
    #[inline(always)]
    pub(crate) fn admit(&self, hall: Below<HALLS>, op: Operation) -> Result<Ask, Refused>
        ensures { result ≡ admitted (hall_tokens self.now.tokens hall) op }
    {
        if !self.is_standing(hall, op) {
            return Err(Refused {
                why: Refusal::NotStanding,
                place: u16::from(op.grant),
            });
        }
        ask_of(op)
    }
}
