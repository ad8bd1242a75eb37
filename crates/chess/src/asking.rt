// What an operation asks of the book of chess, as far as its own numbers tell.
ghost use Rattle.std.specs.Prelude.{◌≡◌, ok_or};
ghost use Rattle.book.specs.Numbers.{natural as natural_part};
ghost use Rattle.chess.specs.Asking.{player, party, seating, at_board, asked, keys as keys_needed};

use super::kinds::Kind;
use super::sheet::{BOARDS, Outcome, PLAYERS};
use records::{Below, Operation};
use rounds::{Ask, Fault, below_or};

// What is asked of a board.
#[derive(Clone, Copy, Debug, PartialEq, Eq, Hash)]
pub enum BoardAsk {
    // white, black
    Seat(u8, u8),
    // round, and the result if it is one
    Enter(u16, Option<Outcome>),
    Read,
}

// The number itself, or 0 where it is negative.
fn natural(c: i32) -> usize
    ensures { result ≡ natural_part c }
{
    c.max(0) as usize
}

fn is_player(n: usize) -> bool
    ensures { result ≡ player n }
{
    n >= 1 && n <= PLAYERS
}

// A player's place among the totals.
fn party(a: u16) -> Result<Below<PLAYERS>, Fault>
    ensures { result ≡ party a }
{
    if a == 0 {
        return Err(Fault::NoParty);
    }
    below_or(a - 1, Fault::NoParty)
}

fn seating(op: Operation) -> Result<BoardAsk, Fault>
    ensures { result ≡ seating op }
{
    let white = usize::from(op.b);
    let black = natural(op.c);
    if !is_player(white) || !is_player(black) || white == black {
        return Err(Fault::NoParty);
    }
    Ok(BoardAsk::Seat(white as u8, black as u8))
}

pub(crate) fn asked(op: Operation) -> Result<Ask<BoardAsk, BOARDS, PLAYERS>, Fault>
    ensures { result ≡ asked op }
{
    match Kind::try_from(op.kind)? {
        Kind::Seat => Ok(Ask::Cell(below_or(op.a, Fault::NoPlace)?, seating(op)?)),
        Kind::Enter => Ok(Ask::Cell(
            below_or(op.a, Fault::NoPlace)?,
            BoardAsk::Enter(op.b, Outcome::try_from(op.c).ok()),
        )),
        Kind::Read => Ok(Ask::Cell(below_or(op.a, Fault::NoPlace)?, BoardAsk::Read)),
        Kind::Close => Ok(Ask::Close(op.a)),
        Kind::Total => Ok(Ask::Total(party(op.a)?)),
    }
}

// The keys that an operation needs: each board has its own, and key 32 guards the totals. Bridge's are like them; one function
// of both would be given the kinds that ask something of a cell, and the mask of all cells, and be no plainer.
pub(crate) fn keys(op: Operation) -> u64
    ensures { result ≡ keys_needed op }
{
    let Ok(kind) = Kind::try_from(op.kind) else {
        return 0;
    };
    match kind {
        Kind::Seat | Kind::Enter | Kind::Read => match below_or::<BOARDS>(op.a, Fault::NoPlace) {
            Ok(board) => 1 << board.get(),
            Err(_) => 0,
        },
        Kind::Close => 0x1_ffff_ffff,
        Kind::Total => 1 << 32,
    }
}
