// Why the roll does not do an operation, and the numbers of that.
ghost use Rattle.std.specs.Prelude.{◌≡◌};
ghost use Rattle.records.specs.Numbers.{Reads};
ghost use Rattle.roll.specs.Refusals.{cause, refusal_of, refused, answered};

use super::LAYER;
use records::{Answer, UnknownNumber};

#[derive(Clone, Copy, Debug, PartialEq, Eq, Hash)]
pub enum Refusal {
    // the grant does not stand
    NotStanding = 1,
    // only the chief appoints and removes
    NotChief = 2,
    // there is no such entry, or it is the chief's and stays
    NoEntry = 3,
    // a deputy's token is at least 1
    NoToken = 4,
}

// Why an operation is refused, and the place of the fault.
#[derive(Clone, Copy, Debug, PartialEq, Eq, Hash)]
pub struct Refused {
    pub why: Refusal,
    pub place: u16,
}

impl From<Refusal> for u8 {
    ghost from_gives = { λ why number. number ≡ cause why };

    fn from(why: Refusal) -> u8 {
        why as u8
    }
}

impl TryFrom<u8> for Refusal {
    type Error = UnknownNumber;

    ghost try_from_gives = { Reads refusal_of };

    fn try_from(number: u8) -> Result<Refusal, UnknownNumber> {
        match number {
            1 => Ok(Refusal::NotStanding),
            2 => Ok(Refusal::NotChief),
            3 => Ok(Refusal::NoEntry),
            4 => Ok(Refusal::NoToken),
            _ => Err(UnknownNumber(number)),
        }
    }
}

impl From<Refused> for Answer {
    ghost from_gives = { λ r answer. answer ≡ refused r };

    fn from(r: Refused) -> Answer {
        Answer::fault(LAYER, u8::from(r.why), r.place)
    }
}

// The answer to an operation: what is said to it, or why it is refused.
pub(crate) fn answer_with(said: Result<Answer, Refused>) -> Answer
    ensures { result ≡ answered said }
{
    said.unwrap_or_else(Answer::from)
}
