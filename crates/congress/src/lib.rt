// The coordinator of several halls: its tables, and the calls that change them.
#![tactic(auto)]

mod congress;
mod deliver;
mod entries;
mod fates;
mod outcomes;
mod queue;
mod refusals;
mod replies;
mod requests;
mod sending;
mod state;
mod tables;
mod taking;
mod votes;
mod work;

pub use fates::Fate;
pub use outcomes::{Outcome, Report};
pub use refusals::Refusal;
pub use state::Congress;
