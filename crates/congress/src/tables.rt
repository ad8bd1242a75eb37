// What stands in the tables of a congress: halls, consoles, and the parts that wait.
use records::{Class, Operation};

// How a hall takes parts: by stamp alone, or with keys held.
#[derive(Clone, Copy, Debug, Default, PartialEq, Eq, Hash)]
pub enum Mode {
    #[default]
    Timestamp,
    Locking,
}

#[derive(Clone, Copy, Debug, Default, PartialEq, Eq, Hash)]
pub struct Hall {
    pub clock: u64,
    // the highest stamp done
    pub last: u64,
    pub mode: Mode,
    // the highest sequence taken from each console
    pub taken: [u32; 16],
}

#[derive(Clone, Copy, Debug, Default, PartialEq, Eq, Hash)]
pub struct Console {
    // whether its last transaction is open: a flag and no Option, since docs/RULES.md has a console that is free again keep
    // the halls that this transaction named, and those that replied
    pub busy: bool,
    pub sequence: u32,
    pub halls: u8,
    pub replied: u8,
    // the highest stamp replied to it
    pub high: u64,
}

// A hall's part of a transaction that waits to be done.
#[derive(Clone, Copy, Debug, Default, PartialEq, Eq, Hash)]
pub struct Entry {
    pub hall: u8,
    pub transaction: u32,
    pub class: Class,
    pub halls: u8,
    pub votes: u8,
    pub stamp: u64,
    pub keys: u64,
    pub operation: Operation,
}
