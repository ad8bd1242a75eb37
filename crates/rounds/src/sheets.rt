// The sheet of a hall, and what each operation answers and makes of it.
ghost use Rattle.std.specs.Prelude.{◌≡◌, ℕ, ◌+◌, ◌≤◌, true, pos, is_ok, option_map, slice_index};
ghost use Rattle.std.specs.List.{slice_get};
ghost use Rattle.book.specs.Below.{some_below, all_below};
ghost use Rattle.rounds.specs.Kept.{KeptSheet};
ghost use Rattle.rounds.specs.Laws.{rounds_lawful, sized_own, blank_own};
ghost use Rattle.rounds.specs.Pages.{after_round, write, model, blank};
ghost use Rattle.rounds.specs.Rounds.{raised, Small};
ghost use Rattle.rounds.specs.Sheets.{used_at, settled_at, closable, gained, closed, says, changed, said, made, answer, after};

use super::asks::Ask;
use super::cells::Cell;
use super::{Fault, answer_with, is_in_turn};
use book::Hall;
use records::{Answer, Below, Operation};
use std::alloc::AllocError;

#[derive(Clone, Copy)]
pub struct Sheet<C, const CELLS: usize, const TOTALS: usize> {
    pub round: u16,
    pub cells: [C; CELLS],
    pub totals: [u32; TOTALS],
}

impl<C: Cell<CELLS, TOTALS>, const CELLS: usize, const TOTALS: usize> Sheet<C, CELLS, TOTALS> {
    // Round 1, nothing played and no points.
    fn blank() -> Sheet<C, CELLS, TOTALS>
        ensures { result ≡ blank C.game }
    {
        Sheet {
            round: 1,
            cells: [C::empty(); CELLS],
            totals: [0; TOTALS],
        }
    }

    fn is_some_used(&self) -> bool
        ensures { result ≡ some_below CELLS (used_at C.game self.now) }
    {
        // no `any`: the borrow checker does not cover a closure over a trait that has a const parameter and an
        // associated type
        for cell in &self.cells {
            if cell.is_used() {
                return true;
            }
        }
        false
    }

    fn are_all_settled(&self) -> bool
        ensures { result ≡ all_below CELLS (settled_at C.game self.now) }
    {
        // no `all`, for the same reason
        for cell in &self.cells {
            if !cell.is_settled() {
                return false;
            }
        }
        true
    }

    fn is_closable(&self, round: u16) -> bool
        ensures { result ≡ closable C.game self.now round }
    {
        is_in_turn(self.round, round) && self.is_some_used() && self.are_all_settled()
    }

    // The totals become those with what each gains from a cell.
    fn add_gains(cell: &C, totals: &mut [u32])
        requires small { (i : ℕ) → slice_index totals.old i + C.game.gain i cell.now ≤ 204800 }
        ensures { totals.new ≡ raised totals.old (λ i. C.game.gain i cell.now) }
    {
        // by index: `iter_mut` leaves nothing known of the array, and for `array::from_fn` the check makes no proof
        for i in 0..totals.len() {
            totals[i] += cell.gain(i);
        }
    }

    // The totals with what the round gives to each.
    fn raised(&self) -> [u32; TOTALS]
        requires last { self.now.round ≤ 99 }
        requires small { Small self.now.round self.now.totals }
        ensures { result ≡ raised self.now.totals (gained C.game self.now) }
    {
        let mut totals = self.totals;
        for cell in &self.cells {
            // most cells are unused in most rounds, and give nothing
            if cell.is_used() {
                Self::add_gains(cell, &mut totals);
            }
        }
        totals
    }
}

// A sheet with what every sheet of the book keeps.
pub struct Kept<C: Cell<CELLS, TOTALS>, const CELLS: usize, const TOTALS: usize> {
    sheet: Sheet<C, CELLS, TOTALS>,
    ghost kept: { KeptSheet C.game sheet },
}

// no derive: the check refuses one over a ghost field of a generic struct
impl<C: Cell<CELLS, TOTALS>, const CELLS: usize, const TOTALS: usize> Copy
    for Kept<C, CELLS, TOTALS> {}

impl<C: Cell<CELLS, TOTALS>, const CELLS: usize, const TOTALS: usize> Clone
    for Kept<C, CELLS, TOTALS> {
    ghost is_clone = { λ k l. l ≡ k };

    fn clone(&self) -> Result<Kept<C, CELLS, TOTALS>, AllocError> {
        Ok(*self)
    }
}

impl<C: Cell<CELLS, TOTALS>, const CELLS: usize, const TOTALS: usize> Kept<C, CELLS, TOTALS> {
    fn close(&mut self)
        requires { self.old.sheet.round ≤ 99 }
        ensures { self.new.sheet ≡ closed C.game self.old.sheet }
    {
        let totals = self.sheet.raised();
        let cells = [C::empty(); CELLS];
        self.sheet.round += 1;
        self.sheet.cells = cells;
        self.sheet.totals = totals;
    }

    fn total(&self, place: Below<TOTALS>) -> i32
        ensures { result ≡ pos (slice_index self.now.sheet.totals place.entry) }
    {
        self.sheet.totals[place.get()] as i32
    }

    // The value of what would be well done, or why it is not done.
    #[inline(always)]
    fn say(&self, ask: Ask<C::Ask, CELLS, TOTALS>) -> Result<i32, Fault>
        ensures { result ≡ says C.game self.now.sheet ask }
    {
        match ask {
            Ask::Cell(place, ask) => self.sheet.cells[place.get()].say(self.sheet.round, ask),
            Ask::Close(round) => {
                if self.sheet.is_closable(round) {
                    Ok(i32::from(round) + 1)
                } else {
                    Err(Fault::NotClosable)
                }
            }
            Ask::Total(place) => Ok(self.total(place)),
        }
    }

    // Makes the change of what is well done.
    fn change(&mut self, ask: Ask<C::Ask, CELLS, TOTALS>)
        requires { is_ok (says C.game self.old.sheet ask) ≡ true }
        ensures { self.new.sheet ≡ changed C.game self.old.sheet ask }
    {
        match ask {
            Ask::Cell(place, ask) => self.sheet.cells[place.get()].change(ask),
            Ask::Close(_) => self.close(),
            Ask::Total(_) => {}
        }
    }

    // What would be well done.
    fn said(&self, op: Operation) -> Result<i32, Fault>
        ensures { result ≡ said C.game self.now.sheet (C.game.asked op) }
    {
        self.say(C::asked(op)?)
    }

    // Does what can be done.
    fn attempt(&mut self, op: Operation) -> Result<i32, Fault>
        ensures said { result ≡ said C.game self.old.sheet (C.game.asked op) }
        ensures made { self.new.sheet ≡ made C.game self.old.sheet (C.game.asked op) }
    {
        let ask = C::asked(op)?;
        let value = self.say(ask)?;
        self.change(ask);
        Ok(value)
    }

    // Number i of those of the totals; none past the last.
    fn total_number(&self, i: usize) -> Option<i64>
        ensures { result ≡ option_map pos (slice_get self.now.sheet.totals i) }
    {
        self.sheet.totals.get(i).copied().map(i64::from)
    }

    // Number i of those of the cells and then of the totals; none past the last.
    fn number_after_round(&self, i: usize) -> Option<i64>
        ensures { result ≡ slice_get (after_round C.game self.now.sheet) i }
    {
        let cell = i / C::WIDTH;
        if cell < CELLS {
            self.sheet.cells[cell].number(i % C::WIDTH)
        } else {
            self.total_number(i - C::WIDTH * CELLS)
        }
    }
}

impl<C: Cell<CELLS, TOTALS>, const CELLS: usize, const TOTALS: usize> Hall
    for Kept<C, CELLS, TOTALS> {
    ghost model = { model C.game };

    ghost page = { λ k. write C.game k.sheet };

    ghost first = { write C.game (blank C.game) };

    const LAYER: u8 = C::LAYER;

    ghost LAYER = { C.LAYER };

    ghost layered = { C.fits.named };

    ghost owned = { λ k. sized_own C.game C.fits k.sheet k.kept.sized };

    ghost first_owned = { blank_own C.game C.fits };

    ghost lawful = { rounds_lawful C.game C.fits };

    fn new() -> Kept<C, CELLS, TOTALS> {
        Kept {
            sheet: Sheet::blank(),
        }
    }

    fn keys(op: Operation) -> u64 {
        C::keys(op)
    }

    fn verdict(&self, op: Operation) -> Answer {
        answer_with(C::LAYER, self.said(op), op.a)
    }

    fn run(&mut self, op: Operation) -> Answer {
        answer_with(C::LAYER, self.attempt(op), op.a)
    }

    fn number(&self, place: usize) -> Option<i64> {
        if place == 0 {
            return Some(i64::from(self.sheet.round));
        }
        self.number_after_round(place - 1)
    }
}
