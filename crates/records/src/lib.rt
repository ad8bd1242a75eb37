// The records that travel between consoles, halls and books: operations and answers, transactions, sets of halls and messages.
#![tactic(auto)]

ghost use Rattle.std.specs.Prelude.{◌≡◌};
ghost use Rattle.records.specs.Answers.{done_with, fault_at, well_done};

mod below;
mod classes;
mod finder;
mod halls;
mod messages;
mod numbers;
mod transactions;

pub use below::Below;
pub use classes::{Class, Status};
pub use finder::{Bears, first_from};
pub use halls::{count_of, fits, has};
pub use messages::{Message, Reply, Request, Vote, is_lawful};
pub use numbers::UnknownNumber;
pub use transactions::{
    CONSOLES, LAST_SEQUENCE, LAST_STAMP, console_of, is_stamp, is_transaction, next_stamp,
    sequence_of, worked_stamps,
};

// What a book is asked to do, by whom and with which numbers.
#[derive(Clone, Copy, Debug, Default, PartialEq, Eq, Hash)]
pub struct Operation {
    // a number and no enum: an operation may have any, and each book knows its own kinds
    pub kind: u8,
    pub grant: u8,
    pub token: u32,
    pub a: u16,
    pub b: u16,
    pub c: i32,
    pub d: u16,
}

// What a book says to an operation: well done with place 0, or a fault with value 0. Four numbers and no Result, since the
// answer that a reply carries may be anything (docs/RULES.md).
#[derive(Clone, Copy, Debug, Default, PartialEq, Eq, Hash)]
pub struct Answer {
    pub layer: u8,
    pub cause: u8,
    pub place: u16,
    pub value: i32,
}

impl Answer {
    // The answer to an operation that is well done.
    pub fn done(layer: u8, value: i32) -> Answer
        ensures { result ≡ done_with layer value }
    {
        Answer {
            layer,
            cause: 0,
            place: 0,
            value,
        }
    }

    // The answer to an operation that the book does not do.
    pub fn fault(layer: u8, cause: u8, place: u16) -> Answer
        ensures { result ≡ fault_at layer cause place }
    {
        Answer {
            layer,
            cause,
            place,
            value: 0,
        }
    }

    pub fn is_well_done(self) -> bool
        ensures { result ≡ well_done self }
    {
        self.cause == 0
    }
}
