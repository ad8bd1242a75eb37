// The lines of a sheet, run through a book one after another.
ghost use Rattle.std.specs.Prelude.{◌≡◌, true, ◌++◌, Some, Ok, is_ok, IfOk, OnOk};
ghost use Rattle.scoring.specs.Running.{start, progress_by, event_of, progress_after as after_line, pages_after, noted, headings, sheet};

use book::Book;
use entries::{Lines, Misread, Progress, Reading, read_line};
use records::{Answer, Operation};
use std::alloc::{AllocError, Global};

// An operation, and what the book said to it.
#[derive(Clone, Copy, Debug, PartialEq, Eq, Hash)]
pub struct Answered {
    pub operation: Operation,
    pub answer: Answer,
}

// What came of a line that says something, with the line's number.
#[derive(Clone, Copy, Debug, PartialEq, Eq, Hash)]
pub struct LogEntry {
    pub line: usize,
    pub event: Result<Answered, Misread>,
}

// What a line says of the sheet, and of the entries to come.
fn with_reading(at: Progress, reading: Reading) -> Progress
    ensures { result ≡ progress_by at (Ok (Some reading)) }
{
    match reading {
        Reading::Hall(hall) => Progress { hall, ..at },
        Reading::Game(game) => Progress { game, ..at },
        Reading::Chief(token) => Progress {
            chief: Some(token),
            ..at
        },
        Reading::As(bearer) => Progress { bearer, ..at },
        Reading::Entry(_) => Progress { begun: true, ..at },
    }
}

fn progress_after(at: Progress, line: &[u8]) -> Progress
    ensures { result ≡ after_line at line.now }
{
    match read_line(line, at) {
        Ok(Some(reading)) => with_reading(at, reading),
        _ => at,
    }
}

// Does what one line says.
fn take_line<B: Book>(
    book: &mut B,
    at: &mut Progress,
    line: &[u8],
) -> Result<Option<Answered>, Misread>
    ensures event { result ≡ event_of B.model (B.pages book.old) at.old line.now }
    ensures progress { at.new ≡ after_line at.old line.now }
    ensures pages { B.pages book.new ≡ pages_after B.model (B.pages book.old) at.old line.now }
{
    let Some(reading) = read_line(line, *at)? else {
        return Ok(None);
    };
    *at = with_reading(*at, reading);
    match reading {
        Reading::Entry(operation) => {
            let answer = book.run(at.hall, operation);
            Ok(Some(Answered { operation, answer }))
        }
        _ => Ok(None),
    }
}

// Notes what came of a line, if anything did.
fn note(
    log: &mut Vec<LogEntry>,
    line: usize,
    came: Result<Option<Answered>, Misread>,
) -> Result<(), AllocError>
    ensures { OnOk result (log.new.items ≡ log.old.items ++ noted line came) }
{
    if let Some(event) = came.transpose() {
        log.push(LogEntry { line, event })?;
    }
    Ok(())
}

// What the lines of a sheet have said of it, and what came of them.
#[derive(Drop)]
pub struct Scored {
    pub at: Progress,
    pub log: Vec<LogEntry>,
}

fn start_of_sheet() -> Progress
    ensures { result ≡ start }
{
    Progress::default()
}

// What all the lines of a text have said of its sheet.
pub fn headings_of(text: &[u8]) -> Progress
    ensures { result ≡ headings text.now }
{
    Lines(text).fold(start_of_sheet(), |at, line| progress_after(at, line))
}

// Runs a sheet, line after line, through a book.
pub fn score<B: Book>(heap: Global, book: &mut B, text: &[u8]) -> Result<Scored, AllocError>
    ensures made { IfOk result (λ s. (s.at ≡ (sheet B.model (B.pages book.old) text.now).at) × (s.log.items ≡ (sheet B.model (B.pages book.old) text.now).log)) }
    ensures pages { is_ok result ≡ true → B.pages book.new ≡ (sheet B.model (B.pages book.old) text.now).pages }
{
    let mut log = Vec::new(heap);
    let mut at = start_of_sheet();
    for (before, line) in Lines(text).enumerate() {
        let came = take_line(book, &mut at, line);
        note(&mut log, before + 1, came)?;
    }
    Ok(Scored { at, log })
}
