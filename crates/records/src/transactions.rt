// Transaction numbers and stamps.
ghost use Rattle.std.specs.Prelude.{◌≡◌};
ghost use Rattle.records.specs.Transactions.{console, sequence, transaction, stamp as stamp_number, next_stamp, WorkedStamps};

// Consoles are numbered from 0.
pub const CONSOLES: u8 = 16;

// Sequences are numbered from 1.
pub const LAST_SEQUENCE: u32 = 1_048_576;

// Stamps are numbered from 1.
pub const LAST_STAMP: u64 = 0x1_0000_0000_0000;

// The console that issued a transaction.
pub fn console_of(number: u32) -> u8
    ensures { result ≡ console number }
{
    (number % u32::from(CONSOLES)) as u8
}

// Which of the console's transactions it is.
pub fn sequence_of(number: u32) -> u32
    ensures { result ≡ sequence number }
{
    number / u32::from(CONSOLES)
}

// Whether a number can be a transaction's.
pub fn is_transaction(number: u32) -> bool
    ensures { result ≡ transaction number }
{
    (1..=LAST_SEQUENCE).contains(&sequence_of(number))
}

// Whether a number can be a stamp.
pub fn is_stamp(number: u64) -> bool
    ensures { result ≡ stamp_number number }
{
    (1..=LAST_STAMP).contains(&number)
}

// The stamp that a hall gives a request; none is left after the last stamp.
pub fn next_stamp(high: u64, last: u64, clock: u64) -> Option<u64>
    ensures { result ≡ next_stamp high last clock }
{
    let highest = high.max(last).max(clock);
    if highest < LAST_STAMP {
        Some(highest + 1)
    } else {
        None
    }
}

// Stamps worked by hand.
pub fn worked_stamps() -> u8
    ensures { WorkedStamps }
{
    0
}
