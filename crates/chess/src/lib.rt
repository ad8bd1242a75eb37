// The book of chess: 32 boards and 64 players in each hall, rounds that are paired, scored and closed.
#![tactic(auto)]

mod asking;
mod kinds;
mod promises;
mod rules;
mod sheet;

pub use asking::BoardAsk;
pub use kinds::Kind;
pub use promises::games_give_a_point;
pub use rules::{Chess, LAYER};
pub use sheet::{Board, Game, Outcome};
