// What each operation answers and makes of a deal: the book of bridge as a game of rounds.
ghost use Rattle.std.proofs.Common.{arith};
ghost use Rattle.std.specs.Prelude.{◌≡◌, refl};
ghost use Rattle.bridge.specs.Laws.{bridge_fits};
ghost use Rattle.bridge.specs.Page.{line_numbers, bridge};
ghost use Rattle.bridge.specs.Rules.{score_says, read_says};

use super::asking::{DealAsk, asked, keys};
use super::sheet::{DEALS, Deal, Entry, PAIRS, TOTALS};
use book::Halls;
use records::Operation;
use rounds::{Ask, Cell, Fault, Kept};

// The layer of this book's answers.
pub const LAYER: u8 = 2;

// How many numbers a line has on a page.
const LINE_WIDTH: usize = 3;

// How many a deal has.
const WIDTH: usize = LINE_WIDTH * PAIRS;

// The book of bridge: a sheet of deals for each of eight halls.
pub type Bridge = Halls<Kept<Deal, DEALS, TOTALS>>;

fn say_to_read(line: Option<Entry>) -> Result<i32, Fault>
    ensures { result ≡ read_says line }
{
    line.map(|entry| entry.score).ok_or(Fault::Nothing)
}

// The numbers of a line on a page.
fn line_numbers(line: Option<Entry>) -> [i64; LINE_WIDTH]
    ensures { result ≡ line_numbers line }
{
    match line {
        Some(entry) => [1, i64::from(entry.pair), i64::from(entry.score)],
        None => [0; LINE_WIDTH],
    }
}

impl Deal {
    fn say_to_score(&self, b: usize, pair: usize) -> Result<i32, Fault>
        ensures { result ≡ score_says self.now b pair }
    {
        if self.has_elsewhere(b, pair) {
            return Err(Fault::Elsewhere);
        }
        Ok(i32::from(self.line(b).is_some()))
    }
}

impl Cell<DEALS, TOTALS> for Deal {
    type Ask = DealAsk;

    ghost game = { bridge };

    const LAYER: u8 = LAYER;

    ghost LAYER = { 2 };

    const WIDTH: usize = WIDTH;

    ghost WIDTH = { 24 };

    ghost wide = { refl };

    ghost has_numbers = { Prim.omega arith };

    ghost fits = { bridge_fits };

    ghost roomy = { Prim.omega arith };

    fn empty() -> Deal {
        Deal {
            lines: [None; PAIRS],
        }
    }

    fn asked(op: Operation) -> Result<Ask<DealAsk, DEALS, TOTALS>, Fault> {
        asked(op)
    }

    fn keys(op: Operation) -> u64 {
        keys(op)
    }

    fn say(&self, _current: u16, ask: DealAsk) -> Result<i32, Fault> {
        match ask {
            DealAsk::Score(b, pair, _) => self.say_to_score(b.get(), pair.get()),
            DealAsk::Read(b) => say_to_read(self.line(b.get())),
        }
    }

    fn change(&mut self, ask: DealAsk) {
        match ask {
            DealAsk::Score(b, pair, score) => {
                self.lines[b.get()] = Some(Entry {
                    pair: pair.get() as u16,
                    score,
                })
            }
            DealAsk::Read(_) => {}
        }
    }

    // Whether some line is scored.
    fn is_used(&self) -> bool {
        self.count() != 0
    }

    // One line alone has nothing to be compared with.
    fn is_settled(&self) -> bool {
        self.count() != 1
    }

    fn gain(&self, total: usize) -> u32 {
        self.points_for(total)
    }

    #[tactic(auto, using(crate::proofs::Numbers::number_of_line, crate::proofs::Numbers::no_number))]
    fn number(&self, j: usize) -> Option<i64> {
        if j >= WIDTH {
            return None;
        }
        line_numbers(self.line(j / LINE_WIDTH))
            .get(j % LINE_WIDTH)
            .copied()
    }
}
