// The words of an account.
use chess::Outcome;
use entries::{Game, Misread};
use records::{Answer, Operation};
use roll::Refusal;
use rounds::Fault;
use scoring::Answered;
use std::fmt;

// The words of refusals and faults of all books stand here, and in no Display: they are the account's, and the books print nothing.
fn words_of_roll(refusal: Refusal) -> &'static str {
    match refusal {
        Refusal::NotStanding => "the grant does not stand",
        Refusal::NotChief => "only the chief may do this",
        Refusal::NoEntry => "no such entry of the roll",
        Refusal::NoToken => "no such token",
    }
}

// Each book has its own words for the faults that it gives, and none for the others; so Fault has no Display.
fn words_of_chess(fault: Fault) -> Option<&'static str> {
    Some(match fault {
        Fault::NoPlace => "no such board",
        Fault::NoParty => "no such player, or the same player twice",
        Fault::HasResult => "the board has a result",
        Fault::Nothing => "nobody is seated at the board",
        Fault::OtherRound => "not the round being played",
        Fault::BadResult => "no such result",
        Fault::NotClosable => "the round cannot be closed",
        Fault::Elsewhere => return None,
        Fault::UnknownKind => "no such kind of operation",
    })
}

fn words_of_bridge(fault: Fault) -> Option<&'static str> {
    Some(match fault {
        Fault::NoPlace => "no such deal",
        Fault::NoParty => "no such pair",
        Fault::Nothing => "no such line",
        Fault::BadResult => "no such score",
        Fault::NotClosable => "the round cannot be closed",
        Fault::Elsewhere => "the pair is on another line of the deal",
        Fault::UnknownKind => "no such kind of operation",
        Fault::HasResult | Fault::OtherRound => return None,
    })
}

// Why an entry was refused.
pub fn cause_words(layer: u8, cause: u8) -> &'static str {
    if cause == book::NO_HALL {
        return "no such hall";
    }
    let words = match layer {
        roll::LAYER => Refusal::try_from(cause).ok().map(words_of_roll),
        chess::LAYER => Fault::try_from(cause).ok().and_then(words_of_chess),
        bridge::LAYER => Fault::try_from(cause).ok().and_then(words_of_bridge),
        _ => None,
    };
    words.unwrap_or("no such cause")
}

// A result where it is one, else the number.
#[derive(Clone, Copy, Debug, PartialEq, Eq, Hash)]
struct ScoreOr(i32);

impl fmt::Display for ScoreOr {
    fn fmt<W: fmt::Write>(&self, f: &mut fmt::Formatter<W>) -> fmt::Result {
        let number = self.0;
        match Outcome::try_from(number) {
            Ok(outcome) => write!(f, "{outcome}"),
            Err(_) => write!(f, "{number}"),
        }
    }
}

// Half points, written in points.
#[derive(Clone, Copy, Debug, PartialEq, Eq, Hash)]
struct HalfPoints(u32);

impl fmt::Display for HalfPoints {
    fn fmt<W: fmt::Write>(&self, f: &mut fmt::Formatter<W>) -> fmt::Result {
        let whole = self.0 / 2;
        if self.0 % 2 == 0 {
            write!(f, "{whole}")
        } else {
            write!(f, "{whole}.5")
        }
    }
}

// The points of a party in a game.
#[derive(Clone, Copy, Debug, PartialEq, Eq, Hash)]
pub struct Points(pub Game, pub u32);

impl fmt::Display for Points {
    fn fmt<W: fmt::Write>(&self, f: &mut fmt::Formatter<W>) -> fmt::Result {
        let Points(game, points) = *self;
        match game {
            Game::Chess => {
                let half = HalfPoints(points);
                write!(f, "{half}")
            }
            Game::Bridge => write!(f, "{points}"),
        }
    }
}

// The name of a party of a game, by its number from 0.
#[derive(Clone, Copy, Debug, PartialEq, Eq, Hash)]
pub struct Party(pub Game, pub u8);

impl fmt::Display for Party {
    fn fmt<W: fmt::Write>(&self, f: &mut fmt::Formatter<W>) -> fmt::Result {
        let Party(game, party) = *self;
        let number = u16::from(party);
        match game {
            Game::Chess => {
                let player = number + 1;
                write!(f, "player {player}")
            }
            Game::Bridge => {
                if number < 8 {
                    write!(f, "N-S {number}")
                } else {
                    let pair = number - 8;
                    write!(f, "E-W {pair}")
                }
            }
        }
    }
}

// The kinds of operations of the three books, or another number, which the account prints as it is.
#[derive(Clone, Copy, Debug, PartialEq, Eq, Hash)]
enum Kind {
    Roll(roll::Kind),
    Chess(chess::Kind),
    Bridge(bridge::Kind),
    Other(u8),
}

impl From<u8> for Kind {
    fn from(number: u8) -> Kind {
        if let Ok(kind) = roll::Kind::try_from(number) {
            Kind::Roll(kind)
        } else if let Ok(kind) = chess::Kind::try_from(number) {
            Kind::Chess(kind)
        } else if let Ok(kind) = bridge::Kind::try_from(number) {
            Kind::Bridge(kind)
        } else {
            Kind::Other(number)
        }
    }
}

// What an entry asks.
#[derive(Clone, Copy, Debug, PartialEq, Eq, Hash)]
pub struct What(pub Operation);

impl fmt::Display for What {
    fn fmt<W: fmt::Write>(&self, f: &mut fmt::Formatter<W>) -> fmt::Result {
        let Operation {
            kind,
            a,
            b,
            c,
            d,
            ..
        } = self.0;
        let score = ScoreOr(c);
        match Kind::from(kind) {
            Kind::Roll(roll::Kind::Appoint) => write!(f, "appoint {a}"),
            Kind::Roll(roll::Kind::Remove) => write!(f, "remove {a}"),
            Kind::Roll(roll::Kind::Read) => write!(f, "deputy {a}"),
            Kind::Chess(chess::Kind::Seat) => write!(f, "seat {b} and {c} at board {a}"),
            Kind::Chess(chess::Kind::Enter) => {
                write!(f, "result {score} at board {a} for round {b}")
            }
            Kind::Chess(chess::Kind::Read) => write!(f, "show board {a}"),
            Kind::Chess(chess::Kind::Total) => write!(f, "total of player {a}"),
            Kind::Bridge(bridge::Kind::Score) => {
                write!(f, "score {c} on deal {a} for N-S {b} and E-W {d}")
            }
            Kind::Bridge(bridge::Kind::Read) => write!(f, "line of N-S {b} on deal {a}"),
            Kind::Bridge(bridge::Kind::Total) => write!(f, "total {a}"),
            Kind::Chess(chess::Kind::Close) | Kind::Bridge(bridge::Kind::Close) => {
                write!(f, "close round {a}")
            }
            Kind::Other(number) => write!(f, "operation of kind {number}"),
        }
    }
}

// By whom an entry was made, where it was not the chief.
#[derive(Clone, Copy, Debug, PartialEq, Eq, Hash)]
pub struct By(pub u8);

impl fmt::Display for By {
    fn fmt<W: fmt::Write>(&self, f: &mut fmt::Formatter<W>) -> fmt::Result {
        let grant = self.0;
        if grant == 0 {
            write!(f, "")
        } else {
            write!(f, " by {grant}")
        }
    }
}

// What came of an entry that was well done: the value in the words of its kind.
#[derive(Clone, Copy, Debug, PartialEq, Eq, Hash)]
struct Done(u8, i32);

impl fmt::Display for Done {
    fn fmt<W: fmt::Write>(&self, f: &mut fmt::Formatter<W>) -> fmt::Result {
        let Done(kind, value) = *self;
        let score = ScoreOr(value);
        let half = HalfPoints(value.max(0) as u32);
        match Kind::from(kind) {
            Kind::Roll(roll::Kind::Appoint) | Kind::Bridge(bridge::Kind::Score) if value != 0 => {
                write!(f, "done, in place of another")
            }
            Kind::Roll(roll::Kind::Remove) if value == 0 => {
                write!(f, "done, nobody was appointed")
            }
            Kind::Roll(roll::Kind::Read) if value == 0 => write!(f, "nobody"),
            Kind::Roll(roll::Kind::Read) => write!(f, "appointed"),
            Kind::Chess(chess::Kind::Enter) if value != 0 => write!(f, "done, in place of {score}"),
            Kind::Chess(chess::Kind::Read) if value == 0 => write!(f, "no result"),
            Kind::Chess(chess::Kind::Read) => write!(f, "{score}"),
            Kind::Chess(chess::Kind::Close) | Kind::Bridge(bridge::Kind::Close) => {
                write!(f, "done, round {value} begins")
            }
            Kind::Chess(chess::Kind::Total) => write!(f, "{half}"),
            Kind::Bridge(bridge::Kind::Read | bridge::Kind::Total) => write!(f, "{value}"),
            _ => write!(f, "done"),
        }
    }
}

// A fault in words.
#[derive(Clone, Copy, Debug, PartialEq, Eq, Hash)]
pub struct Reason(pub Answer);

impl fmt::Display for Reason {
    fn fmt<W: fmt::Write>(&self, f: &mut fmt::Formatter<W>) -> fmt::Result {
        let Answer {
            layer,
            cause,
            place,
            ..
        } = self.0;
        let words = cause_words(layer, cause);
        write!(f, "cause {cause} at {place}: {words}")
    }
}

// The answer to an entry of a kind.
#[derive(Clone, Copy, Debug, PartialEq, Eq, Hash)]
struct Said(u8, Answer);

impl fmt::Display for Said {
    fn fmt<W: fmt::Write>(&self, f: &mut fmt::Formatter<W>) -> fmt::Result {
        let Said(kind, answer) = *self;
        if answer.is_well_done() {
            let done = Done(kind, answer.value);
            write!(f, "{done}")
        } else {
            let reason = Reason(answer);
            write!(f, "refused, {reason}")
        }
    }
}

// A line of the sheet, as the account tells it.
#[derive(Clone, Copy, Debug, PartialEq, Eq, Hash)]
pub struct Entry(pub Result<Answered, Misread>);

impl fmt::Display for Entry {
    fn fmt<W: fmt::Write>(&self, f: &mut fmt::Formatter<W>) -> fmt::Result {
        match self.0 {
            Ok(Answered { operation, answer }) => {
                let what = What(operation);
                let by = By(operation.grant);
                let said = Said(operation.kind, answer);
                write!(f, "{what}{by}: {said}")
            }
            Err(_) => write!(f, "cannot be read"),
        }
    }
}
