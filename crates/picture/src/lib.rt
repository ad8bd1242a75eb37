// What is drawn of a list of calls: which messages each call posted, and what became of them.
#![tactic(auto)]

mod arrows;
mod calls;
mod ledger;

pub use arrows::{Arrow, Fate, Kind, Party, Sent};
pub use calls::{Picture, picture_of};
