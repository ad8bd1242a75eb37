// Reads the lines of a rehearsal's script: what each says, or which of its words is at fault.
#![tactic(auto)]

ghost use Rattle.std.specs.Prelude.{◌≡◌};
ghost use Rattle.script.specs.Reading.{first_settings, settings_with, reading};

mod expected;
mod lines;
mod operations;
mod parts;
mod words;

use entries::{Bearer, Game};
pub use expected::{Expected, Misread};
use lines::line_after;
use order::Call;
use words::Words;

// What the lines so far have said of the rehearsal, and of the operations to come.
#[derive(Clone, Copy, Debug, PartialEq, Eq, Hash)]
pub struct Settings {
    pub game: Game,
    // the chief's token
    pub chief: u32,
    // how many places the post has
    pub places: u16,
    // the account has every page in full
    pub pages: bool,
    pub bearer: Bearer,
    // a call was read
    pub begun: bool,
}

// The chief's token where no line says so.
const FIRST_TOKEN: u32 = 1;

impl Default for Settings {
    ghost is_default = { λ at. at ≡ first_settings };

    fn default() -> Settings {
        Settings {
            game: Game::Chess,
            chief: FIRST_TOKEN,
            places: 1024,
            pages: false,
            bearer: Bearer {
                grant: 0,
                token: FIRST_TOKEN,
            },
            begun: false,
        }
    }
}

impl Settings {
    // What the lines have said with one line more.
    pub fn with(self, line: Line) -> Settings
        ensures { result ≡ settings_with self line }
    {
        match line {
            Line::Book(game) => Settings { game, ..self },
            Line::Chief(chief) => Settings { chief, ..self },
            Line::Post(places) => Settings { places, ..self },
            Line::Pages => Settings {
                pages: true,
                ..self
            },
            Line::As(bearer) => Settings { bearer, ..self },
            Line::Call(_) => Settings {
                begun: true,
                ..self
            },
        }
    }
}

// What a line says of the rehearsal or of the operations to come, or the call that it makes.
#[derive(Clone, Copy, Debug, PartialEq, Eq, Hash)]
pub enum Line {
    Book(Game),
    Chief(u32),
    Post(u16),
    Pages,
    // who asks for the operations from here on
    As(Bearer),
    Call(Call),
}

// What a line says after those that came to these settings. A line without a word, or whose first word begins with `#`,
// says nothing.
pub fn read_line(line: &[u8], at: Settings) -> Result<Option<Line>, Misread>
    ensures { result ≡ reading line.now at }
{
    let mut words = Words::of(line);
    let first = words.next();
    match first.text {
        [] | [b'#', ..] => Ok(None),
        _ => Ok(Some(line_after(first, words, at)?)),
    }
}
