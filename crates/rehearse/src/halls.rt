// The account: for each hall what it did, in order, and how its parties stand.
use crate::history::Part;
use account::{Entry, print_list};
use book::Book;
use entries::{Bearer, Progress};
use scoring::{LogEntry, next_round, standings_of};
use script::Settings;
use std::alloc::{AllocError, Global};
use std::io;

// What a hall did, in order, as the log of a sheet; no line of a sheet says it, so its line is 0.
fn log_of(heap: Global, hall: u8, done: &[Part]) -> Result<Vec<LogEntry>, AllocError> {
    let mut log = Vec::new(heap);
    for part in done.iter().filter(|part| part.hall == hall) {
        log.push(LogEntry {
            line: 0,
            event: Ok(part.answered),
        })?;
    }
    Ok(log)
}

fn print_order(rt: &impl Print, hall: u8, done: &[Part]) -> io::Result<()> {
    println!(rt; "plain order:")?;
    let mut empty = true;
    for part in done.iter().filter(|part| part.hall == hall) {
        empty = false;
        let stamp = part.stamp;
        let transaction = part.transaction;
        let entry = Entry(Ok(part.answered));
        println!(rt; "{stamp}. transaction {transaction}: {entry}")?;
    }
    if empty {
        println!(rt; "none")?;
    }
    Ok(())
}

// All numbers of a hall's page.
fn print_page<B: Book>(rt: &impl Print, hall: u8, book: &B) -> io::Result<()> {
    print!(rt; "page:")?;
    for place in 0..usize::MAX {
        let Some(number) = book.number(hall, place) else {
            break;
        };
        print!(rt; " {number}")?;
    }
    println!(rt; "")
}

fn print_hall<B: Book>(
    rt: &HostRuntime,
    at: Settings,
    hall: u8,
    book: &B,
    done: &[Part],
) -> io::Result<()> {
    let heap = rt.alloc();
    println!(rt; "Hall {hall}")?;
    print_order(rt, hall, done)?;
    let log = log_of(heap, hall, done)?;
    let sheet = Progress {
        hall,
        game: at.game,
        chief: Some(at.chief),
        begun: true,
        bearer: Bearer::default(),
    };
    let round = next_round(at.game, log.as_slice());
    println!(rt; "standings before round {round}:")?;
    let list = standings_of(heap, book, sheet, log.as_slice())?;
    print_list(rt, at.game, list.as_slice())?;
    if at.pages {
        print_page(rt, hall, book)?;
    }
    Ok(())
}

// A part for each hall, after an empty line; none before a congress is opened.
pub fn print_account<B: Book>(
    rt: &HostRuntime,
    at: Settings,
    halls: u8,
    book: &B,
    done: &[Part],
) -> io::Result<()> {
    for hall in 0..halls {
        println!(rt; "")?;
        print_hall(rt, at, hall, book, done)?;
    }
    Ok(())
}
