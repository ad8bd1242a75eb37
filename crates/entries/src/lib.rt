// Reads the lines of a scoresheet: what each says, or which of its words is at fault.
#![tactic(auto)]

ghost use Rattle.std.specs.Prelude.{◌≡◌};
ghost use Rattle.entries.specs.Reading.{reading};

mod commands;
mod fields;
mod words;

use commands::line_after;
pub use commands::{Command, close_kind, command_of, total_kind};
pub use fields::{Count, Value, game_of, number_to};
use records::Operation;
use std::fmt;
use thiserror::Error;
pub use words::{Lines, Word, Words, first_line};

// The game of a sheet.
#[derive(Clone, Copy, Debug, Default, PartialEq, Eq, Hash)]
pub enum Game {
    #[default]
    Chess,
    Bridge,
}

impl fmt::Display for Game {
    fn fmt<W: fmt::Write>(&self, f: &mut fmt::Formatter<W>) -> fmt::Result {
        f.write_str(match self {
            Game::Chess => "Chess",
            Game::Bridge => "Bridge",
        })
    }
}

// By whom an entry is made: a grant, 0 for the chief, and its token.
#[derive(Clone, Copy, Debug, Default, PartialEq, Eq, Hash)]
pub struct Bearer {
    pub grant: u8,
    pub token: u32,
}

// What the lines so far have said of the sheet, and of the entries to come.
#[derive(Clone, Copy, Debug, Default, PartialEq, Eq, Hash)]
pub struct Progress {
    pub hall: u8,
    pub game: Game,
    // the chief's token, where there is a roll
    pub chief: Option<u32>,
    // an entry was read
    pub begun: bool,
    pub bearer: Bearer,
}

// What a word after the first is to be.
#[derive(Clone, Copy, Debug, PartialEq, Eq, Hash)]
pub enum Field {
    Byte,
    Number,
    Count,
    Token,
    Whole,
    Score,
}

impl fmt::Display for Field {
    fn fmt<W: fmt::Write>(&self, f: &mut fmt::Formatter<W>) -> fmt::Result {
        f.write_str(match self {
            Field::Byte => "a number from 0 to 255",
            Field::Number => "a number from 0 to 65535",
            Field::Count => "a number from 0 to 2147483647",
            Field::Token => "a number from 0 to 4294967295",
            Field::Whole => "a number from -2147483648 to 2147483647",
            Field::Score => "1-0, 1/2 or 0-1",
        })
    }
}

// What was expected where a word is at fault.
#[derive(Clone, Copy, Debug, PartialEq, Eq, Hash)]
pub enum Expected {
    Opening,
    Entry,
    Game,
    Value(Field),
    End,
}

impl fmt::Display for Expected {
    fn fmt<W: fmt::Write>(&self, f: &mut fmt::Formatter<W>) -> fmt::Result {
        match self {
            Expected::Opening => f.write_str("hall, game, chief, as or an entry"),
            Expected::Entry => f.write_str("an entry or as, since headings come first"),
            Expected::Game => f.write_str("chess or bridge"),
            Expected::Value(field) => write!(f, "{field}"),
            Expected::End => f.write_str("the end of the line"),
        }
    }
}

// The leftmost word at fault, by its place in the line, counted from 1.
#[derive(Clone, Copy, Debug, PartialEq, Eq, Hash, Error)]
#[error("word {word}: expected {expected}")]
pub struct Misread {
    pub word: u8,
    pub expected: Expected,
}

// What a line says of the sheet or of the entries to come, or the entry that it makes.
#[derive(Clone, Copy, Debug, PartialEq, Eq, Hash)]
pub enum Reading {
    Hall(u8),
    Game(Game),
    Chief(u32),
    // who makes the entries from here on
    As(Bearer),
    Entry(Operation),
}

// What a line says after those that came to this progress. A line without a word, or whose first word begins with `#`,
// says nothing.
pub fn read_line(line: &[u8], at: Progress) -> Result<Option<Reading>, Misread>
    ensures { result ≡ reading line.now at }
{
    let mut words = Words::at(1, line);
    let first = words.next();
    match first.text {
        [] | [b'#', ..] => Ok(None),
        _ => Ok(Some(line_after(first.text, words.rest, at)?)),
    }
}
