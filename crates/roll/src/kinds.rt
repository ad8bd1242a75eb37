// The kinds of operations that are the roll's own.
ghost use Rattle.std.specs.Prelude.{◌≡◌};
ghost use Rattle.records.specs.Numbers.{Reads};
ghost use Rattle.roll.specs.Kinds.{kind_number, kind_of};

use records::UnknownNumber;

#[derive(Clone, Copy, Debug, PartialEq, Eq, Hash)]
pub enum Kind {
    // entry a gets the token c
    Appoint = 1,
    // entry a becomes empty
    Remove = 2,
    // tells whether entry a is filled
    Read = 3,
}

impl From<Kind> for u8 {
    ghost from_gives = { λ kind number. number ≡ kind_number kind };

    fn from(kind: Kind) -> u8 {
        kind as u8
    }
}

impl TryFrom<u8> for Kind {
    type Error = UnknownNumber;

    ghost try_from_gives = { Reads kind_of };

    fn try_from(number: u8) -> Result<Kind, UnknownNumber> {
        match number {
            1 => Ok(Kind::Appoint),
            2 => Ok(Kind::Remove),
            3 => Ok(Kind::Read),
            _ => Err(UnknownNumber(number)),
        }
    }
}
