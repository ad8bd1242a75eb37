// The words of the account.
use super::calls::{Call, Said};
use records::{Message, Operation, Reply, Request, Vote, has};
use std::fmt;

// The halls of a set, each after a space.
#[derive(Clone, Copy, Debug, PartialEq, Eq, Hash)]
struct Halls(u8);

impl fmt::Display for Halls {
    fn fmt<W: fmt::Write>(&self, f: &mut fmt::Formatter<W>) -> fmt::Result {
        for hall in (0..8).filter(|hall| has(self.0, *hall)) {
            write!(f, " {hall}")?;
        }
        Ok(())
    }
}

impl fmt::Display for Call {
    fn fmt<W: fmt::Write>(&self, f: &mut fmt::Formatter<W>) -> fmt::Result {
        match *self {
            Call::Open(number) => write!(f, "open {number} halls"),
            Call::Issue {
                console,
                class,
                halls,
            } => {
                let class = u8::from(class);
                let halls = Halls(halls);
                write!(f, "issue at console {console}, class {class}, halls{halls}")
            }
            Call::Clock { hall, time } => write!(f, "clock of hall {hall} to {time}"),
            Call::Drop(place) => write!(f, "drop the message at {place}"),
            Call::Find(number) => write!(f, "find transaction {number}"),
        }
    }
}

impl fmt::Display for Said {
    fn fmt<W: fmt::Write>(&self, f: &mut fmt::Formatter<W>) -> fmt::Result {
        match *self {
            Said::Done => write!(f, "done"),
            Said::Transaction(number) => write!(f, "transaction {number}"),
            Said::Place(Some(place)) => write!(f, "at {place}"),
            Said::Place(None) => write!(f, "not in the post"),
        }
    }
}

// A message, as the post is listed.
#[derive(Clone, Copy, Debug, PartialEq, Eq, Hash)]
pub struct Listed(pub Message);

impl fmt::Display for Listed {
    fn fmt<W: fmt::Write>(&self, f: &mut fmt::Formatter<W>) -> fmt::Result {
        match self.0 {
            Message::Request(
                Request {
                    transaction,
                    to,
                    class,
                    halls,
                    high,
                    operation: Operation { kind, a, .. },
                },
            ) => {
                let halls = Halls(halls);
                write!(
                    f,
                    "request {transaction} to hall {to}, class {class}, halls{halls}, high {high}: kind {kind}, a {a}"
                )
            }
            Message::Vote(
                Vote {
                    transaction,
                    from,
                    to,
                    ..
                },
            ) => write!(f, "vote {transaction} from hall {from} to hall {to}"),
            Message::Reply(
                Reply {
                    transaction,
                    from,
                    ..
                },
            ) => write!(f, "reply {transaction} from hall {from}"),
        }
    }
}
