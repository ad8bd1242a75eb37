// Runs a sheet through a book, and tells what came of its lines and how the parties stand.
#![tactic(auto)]

mod running;
mod standings;

pub use running::{Answered, LogEntry, Scored, headings_of, score};
pub use standings::{Standing, next_round, place_of, standings_of};
