// What an operation asks of the book of bridge, as far as its own numbers tell.
ghost use Rattle.std.specs.Prelude.{◌≡◌};
ghost use Rattle.bridge.specs.Asking.{fair, asked_score, asked_line, asked, keys as keys_needed};

use super::kinds::Kind;
use super::sheet::{DEALS, PAIRS, TOTALS};
use records::{Below, Operation};
use rounds::{Fault, below_or};

// The largest score of a deal, for either side.
const LARGEST: u32 = 7600;

// Scores are multiples of this.
const STEP: u32 = 10;

// What is asked of a deal.
#[derive(Clone, Copy, Debug, PartialEq, Eq, Hash)]
pub enum DealAsk {
    // North-South pair, the East-West pair against which it plays, and the score
    Score(Below<PAIRS>, Below<PAIRS>, i32),
    // North-South pair
    Read(Below<PAIRS>),
}

// What is asked of a sheet.
pub type Ask = rounds::Ask<DealAsk, DEALS, TOTALS>;

fn is_fair(score: i32) -> bool
    ensures { result ≡ fair score }
{
    let size = score.unsigned_abs();
    size <= LARGEST && size % STEP == 0
}

fn ask_score(op: Operation) -> Result<Ask, Fault>
    ensures { result ≡ asked_score op }
{
    let deal = below_or(op.a, Fault::NoPlace)?;
    let north_south = below_or(op.b, Fault::NoParty)?;
    let east_west = below_or(op.d, Fault::NoParty)?;
    if !is_fair(op.c) {
        return Err(Fault::BadResult);
    }
    Ok(Ask::Cell(deal, DealAsk::Score(north_south, east_west, op.c)))
}

fn ask_line(op: Operation) -> Result<Ask, Fault>
    ensures { result ≡ asked_line op }
{
    let deal = below_or(op.a, Fault::NoPlace)?;
    let north_south = below_or(op.b, Fault::NoParty)?;
    Ok(Ask::Cell(deal, DealAsk::Read(north_south)))
}

// What an operation asks, or the fault that it gets on every page.
pub(crate) fn asked(op: Operation) -> Result<Ask, Fault>
    ensures { result ≡ asked op }
{
    match Kind::try_from(op.kind)? {
        Kind::Score => ask_score(op),
        Kind::Read => ask_line(op),
        Kind::Close => Ok(Ask::Close(op.a)),
        Kind::Total => Ok(Ask::Total(below_or(op.a, Fault::NoParty)?)),
    }
}

// The keys that an operation needs: each deal has its own, and key 32 guards the totals. Chess's are like them; why there are
// two functions stands there.
pub(crate) fn keys(op: Operation) -> u64
    ensures { result ≡ keys_needed op }
{
    let Ok(kind) = Kind::try_from(op.kind) else {
        return 0;
    };
    match kind {
        Kind::Score | Kind::Read => match below_or::<DEALS>(op.a, Fault::NoPlace) {
            Ok(deal) => 1 << deal.get(),
            Err(_) => 0,
        },
        Kind::Close => 0x1_0000_ffff,
        Kind::Total => 1 << 32,
    }
}
