// What the books of chess and bridge share: faults and answers, a sheet of cells and totals for each hall, and the
// closing of a round.
#![tactic(auto)]

ghost use Rattle.std.specs.Prelude.{◌≡◌, ok_or};
ghost use Rattle.records.specs.Below.{below};
ghost use Rattle.records.specs.Numbers.{Reads};
ghost use Rattle.rounds.specs.Faults.{fault_number, fault_of, answered};
ghost use Rattle.rounds.specs.Rounds.{in_turn};

mod asks;
mod cells;
mod sheets;

pub use asks::Ask;
pub use cells::Cell;
use records::{Answer, Below, UnknownNumber};
pub use sheets::Kept;

// Why an operation is not done.
#[derive(Clone, Copy, Debug, PartialEq, Eq, Hash)]
pub enum Fault {
    // no such board or deal
    NoPlace = 1,
    // no such player or pair
    NoParty = 2,
    HasResult = 3,
    // nobody is seated, or there is no line
    Nothing = 4,
    OtherRound = 5,
    BadResult = 6,
    NotClosable = 7,
    // the pair is on another line of the deal
    Elsewhere = 8,
    UnknownKind = 9,
}

// Its cause in an answer.
impl From<Fault> for u8 {
    ghost from_gives = { λ fault cause. cause ≡ fault_number fault };

    fn from(fault: Fault) -> u8 {
        fault as u8
    }
}

impl TryFrom<u8> for Fault {
    type Error = UnknownNumber;

    ghost try_from_gives = { Reads fault_of };

    fn try_from(cause: u8) -> Result<Fault, UnknownNumber> {
        match cause {
            1 => Ok(Fault::NoPlace),
            2 => Ok(Fault::NoParty),
            3 => Ok(Fault::HasResult),
            4 => Ok(Fault::Nothing),
            5 => Ok(Fault::OtherRound),
            6 => Ok(Fault::BadResult),
            7 => Ok(Fault::NotClosable),
            8 => Ok(Fault::Elsewhere),
            9 => Ok(Fault::UnknownKind),
            _ => Err(UnknownNumber(cause)),
        }
    }
}

// The number where it is below N, or else the fault.
pub fn below_or<const N: usize>(number: u16, fault: Fault) -> Result<Below<N>, Fault>
    ensures { result ≡ ok_or (below N number) fault }
{
    Below::new(usize::from(number)).ok_or(fault)
}

// The answer to an operation whose number a is `place`: the value of what is well done, or the fault.
pub fn answer_with(layer: u8, said: Result<i32, Fault>, place: u16) -> Answer
    ensures { result ≡ answered layer said place }
{
    match said {
        Ok(value) => Answer::done(layer, value),
        Err(fault) => Answer::fault(layer, u8::from(fault), place),
    }
}

// The last round that can be closed.
const LAST_ROUND: u16 = 99;

// Whether this round is the one being played, and can be closed at all.
pub fn is_in_turn(current: u16, round: u16) -> bool
    ensures { result ≡ in_turn current round }
{
    round == current && round <= LAST_ROUND
}
