// Makes lists of calls that come from another language, and writes what each told: what `bench/` measures.
#![tactic(auto)]

ghost use Rattle.std.specs.Prelude.{◌≡◌, true, false, length, nat_le};
ghost use Rattle.bridge.specs.Page.{bridge};
ghost use Rattle.chess.specs.Page.{chess};
ghost use Rattle.measured.specs.Measured.{Measured, Untouched};
ghost use Rattle.roll.specs.Roll.{roll_model, first_page};
ghost use Rattle.rounds.specs.Pages.{model, write, blank};

mod making;
mod reading;
mod rows;

use bridge::Deal;
use chess::Board;
use making::measure_new;
use rounds::Kept;
use rows::{CallRow, PartsRow, ToldRow};

// Makes the calls at a congress not yet opened, over a new roll on a new book of chess, with 1,024 places in the post;
// writes what each told, and at the end the pages. Nothing is done where there are fewer places for what is told than
// calls.
#[unsafe(no_mangle)]
pub extern "C" fn measure_chess(
    chief: u32,
    parts: &[PartsRow],
    calls: &[CallRow],
    told: &mut [ToldRow],
    pages: &mut [i64],
) -> bool
    ensures fits { result ≡ nat_le (length calls.now) (length told.old) }
    ensures told { result ≡ true → Measured (roll_model (model chess)) (first_page chief (write chess (blank chess))) parts.now calls.now told.old told.new pages.old pages.new }
    ensures refused { result ≡ false → Untouched told.old told.new pages.old pages.new }
{
    measure_new::<Kept<Board, 32, 64>>(chief, parts, calls, told, pages)
}

// The same over a book of bridge.
#[unsafe(no_mangle)]
pub extern "C" fn measure_bridge(
    chief: u32,
    parts: &[PartsRow],
    calls: &[CallRow],
    told: &mut [ToldRow],
    pages: &mut [i64],
) -> bool
    ensures fits { result ≡ nat_le (length calls.now) (length told.old) }
    ensures told { result ≡ true → Measured (roll_model (model bridge)) (first_page chief (write bridge (blank bridge))) parts.now calls.now told.old told.new pages.old pages.new }
    ensures refused { result ≡ false → Untouched told.old told.new pages.old pages.new }
{
    measure_new::<Kept<Deal, 16, 16>>(chief, parts, calls, told, pages)
}
