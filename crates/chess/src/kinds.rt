// The kinds of operations that are the book of chess's own.
ghost use Rattle.std.specs.Prelude.{◌≡◌};
ghost use Rattle.chess.specs.Kinds.{kind_number, ReadsKind};

use rounds::Fault;

#[derive(Clone, Copy, Debug, PartialEq, Eq, Hash)]
pub enum Kind {
    // board a for players b and c
    Seat = 16,
    // result c at board a for round b
    Enter = 17,
    // the result at board a
    Read = 18,
    // round a
    Close = 19,
    // player a
    Total = 20,
}

impl From<Kind> for u8 {
    ghost from_gives = { λ kind number. number ≡ kind_number kind };

    fn from(kind: Kind) -> u8 {
        kind as u8
    }
}

impl TryFrom<u8> for Kind {
    type Error = Fault;

    ghost try_from_gives = { ReadsKind };

    fn try_from(number: u8) -> Result<Kind, Fault> {
        match number {
            16 => Ok(Kind::Seat),
            17 => Ok(Kind::Enter),
            18 => Ok(Kind::Read),
            19 => Ok(Kind::Close),
            20 => Ok(Kind::Total),
            _ => Err(Fault::UnknownKind),
        }
    }
}
