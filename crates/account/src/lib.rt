// Scores the sheet on standard input, in the book that its headings ask for, and prints the account.
#![tactic(auto)]

mod printing;
mod words;

use book::Book;
use bridge::Bridge;
use chess::Chess;
use entries::Game;
use printing::print_account;
pub use printing::print_list;
use roll::Roll;
use scoring::{headings_of, score, standings_of};
use std::io;
use std::io::Read;
pub use words::{By, Entry, What, cause_words};

// Scores a sheet in a book, and prints the account.
fn score_in<B: Book + Drop>(rt: &HostRuntime, mut book: B, text: &[u8]) -> io::Result<()> {
    let heap = rt.alloc();
    let scored = score(heap, &mut book, text)?;
    let list = standings_of(heap, &book, scored.at, scored.log.as_slice())?;
    print_account(rt, &scored, list.as_slice())
}

// Scores a sheet in a book, under a roll where the sheet has a chief.
fn score_under<B: Book + Drop>(
    rt: &HostRuntime,
    chief: Option<u32>,
    book: B,
    text: &[u8],
) -> io::Result<()> {
    match chief {
        None => score_in(rt, book, text),
        Some(chief) => score_in(rt, Roll::new(chief, book), text),
    }
}

pub fn score_input(rt: &HostRuntime) -> io::Result<()> {
    let mut text = Vec::new(rt.alloc());
    rt.stdin().read_to_end(&mut text)?;
    let at = headings_of(text.as_slice());
    match at.game {
        Game::Chess => score_under(rt, at.chief, Chess::new(), text.as_slice()),
        Game::Bridge => score_under(rt, at.chief, Bridge::new(), text.as_slice()),
    }
}
