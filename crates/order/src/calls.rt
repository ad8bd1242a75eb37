// The calls that a list is made of, and what they tell.
use congress::Report;
use records::Operation;

// Halls, consoles, classes and places are plain numbers, since a caller may give any.
#[derive(Clone, Copy, Debug, PartialEq, Eq, Hash)]
pub enum Call {
    Open {
        halls: u8,
    },
    Issue {
        console: u8,
        class: u8,
        halls: u8,
        operations: [Operation; 8],
    },
    Deliver {
        place: usize,
    },
    Work {
        hall: u8,
    },
    Clock {
        hall: u8,
        time: u64,
    },
    Drop {
        place: usize,
    },
}

// What a call tells that is not refused.
#[derive(Clone, Copy, Debug, PartialEq, Eq, Hash)]
pub enum Said {
    Nothing,
    // the transaction that was issued
    Number(u32),
    Report(Report),
}
