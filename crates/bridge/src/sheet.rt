// What one hall's page of bridge holds.

pub(crate) const DEALS: usize = 16;

pub(crate) const PAIRS: usize = 8;

// The totals of the North-South pairs, and then those of the East-West pairs.
pub(crate) const TOTALS: usize = 16;

#[derive(Clone, Copy, Debug, PartialEq, Eq, Hash)]
pub enum Side {
    NorthSouth,
    EastWest,
}

// What a North-South pair scored on a deal, and against which East-West pair.
#[derive(Clone, Copy, Debug, PartialEq, Eq, Hash)]
pub struct Entry {
    // no `Below`: who makes a book of bridge and hands it on by value, as to a roll, is not proved where its lines have a
    // type with an invariant (tried)
    pub pair: u16,
    pub score: i32,
}

// A line for each North-South pair.
#[derive(Clone, Copy, Debug, PartialEq, Eq, Hash)]
pub struct Deal {
    pub lines: [Option<Entry>; PAIRS],
}
