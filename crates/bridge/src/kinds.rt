// The kinds of operations that are the book of bridge's own.
ghost use Rattle.std.specs.Prelude.{◌≡◌};
ghost use Rattle.bridge.specs.Kinds.{kind_number, ReadsKind};

use rounds::Fault;

#[derive(Clone, Copy, Debug, PartialEq, Eq, Hash)]
pub enum Kind {
    // score c on deal a, of North-South pair b against East-West pair d
    Score = 32,
    // the score on deal a of North-South pair b
    Read = 33,
    // round a
    Close = 34,
    // total a
    Total = 35,
}

impl From<Kind> for u8 {
    ghost from_gives = { λ kind number. number ≡ kind_number kind };

    fn from(kind: Kind) -> u8 {
        kind as u8
    }
}

impl TryFrom<u8> for Kind {
    type Error = Fault;

    ghost try_from_gives = { ReadsKind };

    fn try_from(number: u8) -> Result<Kind, Fault> {
        match number {
            32 => Ok(Kind::Score),
            33 => Ok(Kind::Read),
            34 => Ok(Kind::Close),
            35 => Ok(Kind::Total),
            _ => Err(Fault::UnknownKind),
        }
    }
}
