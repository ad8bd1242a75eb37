// What a line says after its first word.
ghost use Rattle.std.specs.Prelude.{◌≡◌, ◌<◌, [], ◌∷◌, Ok};
ghost use Rattle.entries.specs.Words.{first_word};
ghost use Rattle.entries.specs.declared.Reading.TheVariants as Reading;
ghost use Rattle.entries.specs.Reading.{and_then, ended, fields, entry as entry_word, opening, close_kind, total_kind, entry_line, hall_line, chief_line, game_line, as_line, line_says};

use crate::fields::{Count, Value, game_of};
use crate::words::Words;
use crate::{Bearer, Expected, Game, Misread, Progress, Reading};
use chess::Outcome;
use records::Operation;

// The first word of an entry.
#[derive(Clone, Copy, Debug, PartialEq, Eq, Hash)]
pub enum Command {
    Appoint,
    Remove,
    Deputy,
    Seat,
    Result,
    Show,
    Score,
    Line,
    Close,
    Total,
    Op,
}

// The first word of a line.
#[derive(Clone, Copy, Debug, PartialEq, Eq, Hash)]
pub enum Opening {
    Hall,
    Game,
    Chief,
    As,
    Entry(Command),
}

// An Option and no TryFrom, here and in `opening_of` and `game_of`: what was expected depends on where the word stands.
pub fn command_of(word: &[u8]) -> Option<Command>
    ensures { result ≡ entry_word word.now }
{
    match word {
        b"appoint" => Some(Command::Appoint),
        b"remove" => Some(Command::Remove),
        b"deputy" => Some(Command::Deputy),
        b"seat" => Some(Command::Seat),
        b"result" => Some(Command::Result),
        b"show" => Some(Command::Show),
        b"score" => Some(Command::Score),
        b"line" => Some(Command::Line),
        b"close" => Some(Command::Close),
        b"total" => Some(Command::Total),
        b"op" => Some(Command::Op),
        _ => None,
    }
}

fn opening_of(word: &[u8]) -> Option<Opening>
    ensures { result ≡ opening word.now }
{
    match word {
        b"hall" => Some(Opening::Hall),
        b"game" => Some(Opening::Game),
        b"chief" => Some(Opening::Chief),
        b"as" => Some(Opening::As),
        _ => Some(Opening::Entry(command_of(word)?)),
    }
}

// What a line with this first word says. Headings come before the first entry. Not inlined, so that a line that says
// nothing does not pay for what the others need.
#[inline(never)]
pub fn line_after(first: &[u8], rest: &[u8], at: Progress) -> Result<Reading, Misread>
    ensures { result ≡ line_says at (opening first.now) rest.now }
{
    match opening_of(first) {
        None => Err(Misread {
            word: 1,
            expected: Expected::Opening,
        }),
        Some(Opening::As) => bearer(rest),
        Some(Opening::Entry(command)) => entry_after(command, rest, at),
        Some(Opening::Hall | Opening::Game | Opening::Chief) if at.begun => Err(Misread {
            word: 1,
            expected: Expected::Entry,
        }),
        Some(Opening::Hall) => hall(rest),
        Some(Opening::Game) => game(rest),
        Some(Opening::Chief) => chief(rest),
    }
}

// The one field of a line.
fn only<T: Value + Drop>(rest: &[u8]) -> Result<T, Misread>
    ensures { and_then result (λ v. Ok (T.number v ∷ [])) ≡ fields (T.FIELD ∷ []) 2 rest.now }
{
    let mut words = Words::at(2, rest);
    let value = words.field()?;
    words.end()?;
    Ok(value)
}

fn hall(rest: &[u8]) -> Result<Reading, Misread>
    ensures { result ≡ hall_line rest.now }
{
    Ok(Reading::Hall(only(rest)?))
}

fn game(rest: &[u8]) -> Result<Reading, Misread>
    ensures { result ≡ game_line rest.now }
{
    let mut words = Words::at(2, rest);
    let word = words.next();
    match game_of(word.text) {
        None => Err(word.misread(Expected::Game)),
        Some(game) => {
            words.end()?;
            Ok(Reading::Game(game))
        }
    }
}

fn chief(rest: &[u8]) -> Result<Reading, Misread>
    ensures { result ≡ chief_line rest.now }
{
    Ok(Reading::Chief(only(rest)?))
}

fn bearer(rest: &[u8]) -> Result<Reading, Misread>
    ensures { result ≡ as_line rest.now }
{
    let mut words = Words::at(2, rest);
    let bearer = Bearer {
        grant: words.field()?,
        token: words.field()?,
    };
    words.end()?;
    Ok(Reading::As(bearer))
}

// The kind of the operation that closes a round: a number, since the kinds of the two books are two types.
pub fn close_kind(game: Game) -> u8
    ensures { result ≡ close_kind game }
{
    match game {
        Game::Chess => chess::Kind::Close as u8,
        Game::Bridge => bridge::Kind::Close as u8,
    }
}

// The kind of the operation that reads a total, a number likewise.
pub fn total_kind(game: Game) -> u8
    ensures { result ≡ total_kind game }
{
    match game {
        Game::Chess => chess::Kind::Total as u8,
        Game::Bridge => bridge::Kind::Total as u8,
    }
}

// An entry, where no word of its line is left. Each arm below ends by this: where they meet before the end of the line, the
// check finds no proof.
fn entry_at_end(operation: Operation, words: Words) -> Result<Reading, Misread>
    requires { words.place < 255 }
    ensures { result ≡ and_then (ended words.entry.place (first_word words.entry.rest.now)) (λ _. Ok (Reading.Entry operation)) }
{
    words.end()?;
    Ok(Reading::Entry(operation))
}

// The fields stand in the order of the line, since each takes the next word.
fn entry_after(command: Command, rest: &[u8], at: Progress) -> Result<Reading, Misread>
    ensures { result ≡ entry_line at command rest.now }
{
    let mut words = Words::at(2, rest);
    let Bearer { grant, token } = at.bearer;
    // an operation of the bearer that asks nothing yet
    let signed = Operation {
        grant,
        token,
        ..Operation::default()
    };
    match command {
        Command::Appoint => entry_at_end(
            Operation {
                kind: roll::Kind::Appoint as u8,
                a: words.field()?,
                c: words.field::<Count>()?.0,
                ..signed
            },
            words,
        ),
        Command::Remove => entry_at_end(
            Operation {
                kind: roll::Kind::Remove as u8,
                a: words.field()?,
                ..signed
            },
            words,
        ),
        Command::Deputy => entry_at_end(
            Operation {
                kind: roll::Kind::Read as u8,
                a: words.field()?,
                ..signed
            },
            words,
        ),
        Command::Seat => entry_at_end(
            Operation {
                kind: chess::Kind::Seat as u8,
                a: words.field()?,
                b: words.field()?,
                c: words.field::<Count>()?.0,
                ..signed
            },
            words,
        ),
        Command::Result => entry_at_end(
            Operation {
                kind: chess::Kind::Enter as u8,
                a: words.field()?,
                b: words.field()?,
                c: words.field::<Outcome>()? as i32,
                ..signed
            },
            words,
        ),
        Command::Show => entry_at_end(
            Operation {
                kind: chess::Kind::Read as u8,
                a: words.field()?,
                ..signed
            },
            words,
        ),
        Command::Score => entry_at_end(
            Operation {
                kind: bridge::Kind::Score as u8,
                a: words.field()?,
                b: words.field()?,
                d: words.field()?,
                c: words.field()?,
                ..signed
            },
            words,
        ),
        Command::Line => entry_at_end(
            Operation {
                kind: bridge::Kind::Read as u8,
                a: words.field()?,
                b: words.field()?,
                ..signed
            },
            words,
        ),
        Command::Close => entry_at_end(
            Operation {
                kind: close_kind(at.game),
                a: words.field()?,
                ..signed
            },
            words,
        ),
        Command::Total => entry_at_end(
            Operation {
                kind: total_kind(at.game),
                a: words.field()?,
                ..signed
            },
            words,
        ),
        Command::Op => entry_at_end(
            Operation {
                kind: words.field()?,
                a: words.field()?,
                b: words.field()?,
                c: words.field()?,
                d: words.field()?,
                ..signed
            },
            words,
        ),
    }
}
