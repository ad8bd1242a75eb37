// The book of bridge: 16 deals and eight pairs a side in each hall, scored by match points.
#![tactic(auto)]

mod asking;
mod kinds;
mod points;
mod promises;
mod rules;
mod sheet;

pub use asking::DealAsk;
pub use kinds::Kind;
pub use promises::sides_share_points;
pub use rules::{Bridge, LAYER};
pub use sheet::{Deal, Entry};
