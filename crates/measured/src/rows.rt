// The rows in which calls come, and in which what they told is written: numbers alone, as C lays them out.

#[repr(C)]
#[derive(Clone, Copy)]
pub struct OperationRow {
    pub kind: u8,
    pub grant: u8,
    pub token: u32,
    pub a: u16,
    pub b: u16,
    pub c: i32,
    pub d: u16,
}

// What each hall is asked by an Issue.
#[repr(C)]
#[derive(Clone, Copy)]
pub struct PartsRow {
    pub operations: [OperationRow; 8],
}

// Which call a row is goes by its kind: 0 Open, 1 Issue, 2 Deliver, 3 Work, 4 Clock, any other Drop.
#[repr(C)]
#[derive(Clone, Copy)]
pub struct CallRow {
    // a place or a time; of an Issue the number of its row of parts
    pub number: u64,
    pub kind: u8,
    // a console or a hall; of Open how many halls
    pub at: u8,
    pub class: u8,
    pub halls: u8,
}

// What a call told, by its kind: 0 nothing, 1 a transaction, 2 an outcome, 3 a refusal. What a kind has not is 0.
#[repr(C)]
#[derive(Clone, Copy)]
pub struct ToldRow {
    pub stamp: u64,
    pub transaction: u32,
    pub value: i32,
    pub place: u16,
    pub kind: u8,
    // of an outcome or a refusal
    pub number: u8,
    pub hall: u8,
    pub layer: u8,
    pub cause: u8,
}
