// The boards of a hall.
ghost use Rattle.std.specs.Prelude.{◌≡◌};
ghost use Rattle.chess.specs.Asking.{outcome_number, ReadsOutcome};

use rounds::Fault;
use std::fmt;

pub(crate) const BOARDS: usize = 32;

pub(crate) const PLAYERS: usize = 64;

// How a game ended.
#[derive(Clone, Copy, Debug, PartialEq, Eq, Hash)]
pub enum Outcome {
    White = 1,
    Draw = 2,
    Black = 3,
}

impl From<Outcome> for u8 {
    ghost from_gives = { λ outcome number. number ≡ outcome_number outcome };

    fn from(outcome: Outcome) -> u8 {
        outcome as u8
    }
}

impl TryFrom<i32> for Outcome {
    type Error = Fault;

    ghost try_from_gives = { ReadsOutcome };

    fn try_from(number: i32) -> Result<Outcome, Fault> {
        match number {
            1 => Ok(Outcome::White),
            2 => Ok(Outcome::Draw),
            3 => Ok(Outcome::Black),
            _ => Err(Fault::BadResult),
        }
    }
}

// As a scoresheet writes it.
impl fmt::Display for Outcome {
    fn fmt<W: fmt::Write>(&self, f: &mut fmt::Formatter<W>) -> fmt::Result {
        f.write_str(match self {
            Outcome::White => "1-0",
            Outcome::Draw => "1/2",
            Outcome::Black => "0-1",
        })
    }
}

// The players by their numbers, and how their game ended if it has. Players count from 1, so that none is a number
// below a limit as a bridge pair is.
#[derive(Clone, Copy, Debug, PartialEq, Eq, Hash)]
pub struct Game {
    pub white: u8,
    pub black: u8,
    pub result: Option<Outcome>,
}

// A board, with the game that is seated at it if there is one; a struct, since an `Option` cannot have `Cell`, which is
// of another crate.
#[derive(Clone, Copy, Debug, PartialEq, Eq, Hash)]
pub struct Board {
    pub game: Option<Game>,
}
