// Messages between consoles and halls, and which of them are lawful.
ghost use Rattle.std.specs.Prelude.{◌≡◌};
ghost use Rattle.records.specs.Messages.{transaction_of, status as status_number, request_lawful, vote_lawful, reply_lawful, lawful};

use super::classes::Status;
use super::finder::Bears;
use super::halls::{fits, has};
use super::transactions::{LAST_STAMP, is_stamp, is_transaction};
use super::{Answer, Operation};

// A console asks a hall to do its part of a transaction.
#[derive(Clone, Copy, Debug, Default, PartialEq, Eq, Hash)]
pub struct Request {
    pub transaction: u32,
    pub to: u8,
    // a number and no Class, since a message that comes by wire may have any
    pub class: u8,
    pub halls: u8,
    // the highest stamp replied to the console
    pub high: u64,
    pub operation: Operation,
}

// A hall tells another what it says of a transaction.
#[derive(Clone, Copy, Debug, PartialEq, Eq, Hash)]
pub struct Vote {
    pub transaction: u32,
    pub from: u8,
    pub to: u8,
    pub stamp: u64,
    // a number and no Status, likewise
    pub status: u8,
}

// A hall tells the console what came of its part.
#[derive(Clone, Copy, Debug, PartialEq, Eq, Hash)]
pub struct Reply {
    pub transaction: u32,
    pub from: u8,
    pub stamp: u64,
    // a number and no Status, likewise
    pub status: u8,
    pub answer: Answer,
}

#[derive(Clone, Copy, Debug, PartialEq, Eq, Hash)]
pub enum Message {
    Request(Request),
    Vote(Vote),
    Reply(Reply),
}

impl Bears for Message {
    ghost number = { transaction_of };

    fn transaction(&self) -> u32 {
        match self {
            Message::Request(request) => request.transaction,
            Message::Vote(vote) => vote.transaction,
            Message::Reply(reply) => reply.transaction,
        }
    }
}

fn is_status(number: u8) -> bool
    ensures { result ≡ status_number number }
{
    Status::try_from(number).is_ok()
}

impl Request {
    fn is_lawful(self, open: u8) -> bool
        ensures { result ≡ request_lawful «open» self }
    {
        is_transaction(self.transaction)
            && self.to < open
            && fits(open, self.class, self.halls)
            && has(self.halls, self.to)
            && self.high <= LAST_STAMP
    }
}

impl Vote {
    fn is_lawful(self, open: u8) -> bool
        ensures { result ≡ vote_lawful «open» self }
    {
        is_transaction(self.transaction)
            && self.from < open
            && self.to < open
            && self.from != self.to
            && is_stamp(self.stamp)
            && is_status(self.status)
    }
}

impl Reply {
    fn is_lawful(self, open: u8) -> bool
        ensures { result ≡ reply_lawful «open» self }
    {
        is_transaction(self.transaction)
            && self.from < open
            && is_stamp(self.stamp)
            && is_status(self.status)
    }
}

// Whether a message is one that a congress with so many open halls could have sent.
pub fn is_lawful(open: u8, message: Message) -> bool
    ensures { result ≡ lawful «open» message }
{
    match message {
        Message::Request(request) => request.is_lawful(open),
        Message::Vote(vote) => vote.is_lawful(open),
        Message::Reply(reply) => reply.is_lawful(open),
    }
}
