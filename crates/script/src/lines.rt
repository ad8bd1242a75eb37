// What a line says after its first word.
ghost use Rattle.std.specs.Prelude.{◌≡◌, Ok, unsigned_abs};
ghost use Rattle.script.specs.Reading.{opening, heading, only as only_field, only_long, book_line, pages_line, as_line, clock_line, issue_line, line_of, line_says};
ghost use Rattle.script.specs.Words.{and_then};

use crate::parts::parts;
use crate::words::{Word, Words};
use crate::{Expected, Line, Misread, Settings};
use entries::{Bearer, Value};
use order::Call;

// The first word of a line.
#[derive(Clone, Copy, Debug, PartialEq, Eq, Hash)]
pub enum Opening {
    Book,
    Chief,
    Post,
    Pages,
    As,
    Open,
    Issue,
    Deliver,
    Work,
    Clock,
    Drop,
}

// An Option and no TryFrom: what was expected depends on where the word stands.
fn opening_of(word: &[u8]) -> Option<Opening>
    ensures { result ≡ opening word.now }
{
    match word {
        b"book" => Some(Opening::Book),
        b"chief" => Some(Opening::Chief),
        b"post" => Some(Opening::Post),
        b"pages" => Some(Opening::Pages),
        b"as" => Some(Opening::As),
        b"open" => Some(Opening::Open),
        b"issue" => Some(Opening::Issue),
        b"deliver" => Some(Opening::Deliver),
        b"work" => Some(Opening::Work),
        b"clock" => Some(Opening::Clock),
        b"drop" => Some(Opening::Drop),
        _ => None,
    }
}

impl Opening {
    fn is_heading(self) -> bool
        ensures { result ≡ heading self }
    {
        matches!(
            self,
            Opening::Book | Opening::Chief | Opening::Post | Opening::Pages
        )
    }
}

// What a line with this first word says. Headings come before the first call.
pub fn line_after(first: Word, words: Words, at: Settings) -> Result<Line, Misread>
    requires first { first.place ≡ 1 }
    requires next { words.place ≡ 2 }
    ensures { result ≡ line_says at (opening first.entry.text.now) words.entry.rest.now }
{
    match opening_of(first.text) {
        None => Err(first.misread(Expected::Opening)),
        Some(opening) if at.begun && opening.is_heading() => Err(first.misread(Expected::Call)),
        Some(opening) => line_of(opening, words, &at),
    }
}

fn line_of(opening: Opening, words: Words, at: &Settings) -> Result<Line, Misread>
    ensures { result ≡ line_of at.now opening words.entry.place words.entry.rest.now }
{
    match opening {
        Opening::Book => book(words),
        Opening::Chief => Ok(Line::Chief(only(words)?)),
        Opening::Post => Ok(Line::Post(only(words)?)),
        Opening::Pages => pages(words),
        Opening::As => bearer(words),
        Opening::Open => Ok(Line::Call(Call::Open {
            halls: only(words)?,
        })),
        Opening::Issue => issue(words, at),
        Opening::Deliver => Ok(Line::Call(Call::Deliver {
            place: only_place(words)?,
        })),
        Opening::Work => Ok(Line::Call(Call::Work { hall: only(words)? })),
        Opening::Clock => clock(words),
        Opening::Drop => Ok(Line::Call(Call::Drop {
            place: only_place(words)?,
        })),
    }
}

// The one field of a line.
fn only<T: Value + Drop>(mut words: Words) -> Result<T, Misread>
    ensures { and_then result (λ v. Ok (unsigned_abs (T.number v))) ≡ only_field T.FIELD words.entry.place words.entry.rest.now }
{
    let value = words.field()?;
    words.end()?;
    Ok(value)
}

// The one field of a line, as a place in the post.
fn only_place(mut words: Words) -> Result<usize, Misread>
    ensures { result ≡ only_long words.entry.place words.entry.rest.now }
{
    let place = words.long()?;
    words.end()?;
    Ok(place as usize)
}

fn book(mut words: Words) -> Result<Line, Misread>
    ensures { result ≡ book_line words.entry.place words.entry.rest.now }
{
    let game = words.game()?;
    words.end()?;
    Ok(Line::Book(game))
}

fn pages(words: Words) -> Result<Line, Misread>
    ensures { result ≡ pages_line words.entry.place words.entry.rest.now }
{
    words.end()?;
    Ok(Line::Pages)
}

fn bearer(mut words: Words) -> Result<Line, Misread>
    ensures { result ≡ as_line words.entry.place words.entry.rest.now }
{
    let bearer = Bearer {
        grant: words.field()?,
        token: words.field()?,
    };
    words.end()?;
    Ok(Line::As(bearer))
}

fn clock(mut words: Words) -> Result<Line, Misread>
    ensures { result ≡ clock_line words.entry.place words.entry.rest.now }
{
    let hall = words.field()?;
    let time = words.long()?;
    words.end()?;
    Ok(Line::Call(Call::Clock { hall, time }))
}

fn issue(mut words: Words, at: &Settings) -> Result<Line, Misread>
    ensures { result ≡ issue_line at.now words.entry.place words.entry.rest.now }
{
    let console = words.field()?;
    let class = words.class()?;
    let halls = words.field()?;
    let operations = parts(words, at)?;
    Ok(Line::Call(Call::Issue {
        console,
        class,
        halls,
        operations,
    }))
}
