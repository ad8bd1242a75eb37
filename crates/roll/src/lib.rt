// The roll of deputies, a book over any book: it lets through only what is asked under a grant that stands.
#![tactic(auto)]

mod asking;
mod halls;
mod kinds;
mod promises;
mod refusals;
mod tokens;

pub use asking::ENTRIES;
pub use halls::Roll;
pub use kinds::Kind;
pub use promises::{entries_stay, is_a_roll, removal_empties};
pub use refusals::Refusal;

// The layer of the roll's own answers.
pub const LAYER: u8 = 3;
