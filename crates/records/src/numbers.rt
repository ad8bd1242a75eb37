// What is said where a number stands for nothing.
use thiserror::Error;

// A number that no case has.
#[derive(Clone, Copy, Debug, PartialEq, Eq, Hash, Error)]
#[error("nothing has the number {0}")]
pub struct UnknownNumber(pub u8);
