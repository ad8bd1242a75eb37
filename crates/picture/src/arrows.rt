// Messages and their arrows.
ghost use Rattle.std.specs.Prelude.{◌≡◌};
ghost use Rattle.picture.specs.Arrows.{sent_in};

use records::{Message, console_of};

// Who sends messages, and to whom they come.
#[derive(Clone, Copy, Debug, PartialEq, Eq, Hash)]
pub enum Party {
    Console(u8),
    Hall(u8),
}

#[derive(Clone, Copy, Debug, PartialEq, Eq, Hash)]
pub enum Kind {
    Request,
    Vote,
    Reply,
}

// A message: of which kind, from whom, to whom, and by which call it was posted, counted from 0.
#[derive(Clone, Copy, Debug, PartialEq, Eq, Hash)]
pub struct Sent {
    pub kind: Kind,
    pub from: Party,
    pub to: Party,
    pub call: usize,
}

// What became of a message.
#[derive(Clone, Copy, Debug, PartialEq, Eq, Hash)]
pub enum Fate {
    // it was delivered, for the first time
    Arrived,
    // it was delivered, and not for the first time
    Again,
    // it was dropped, and never delivered
    Lost,
    // an Open or the end of the calls left it undelivered
    Left,
}

// What became of a message, and by which call; one that was left has the call that posted it.
#[derive(Clone, Copy, Debug, PartialEq, Eq, Hash)]
pub struct Arrow {
    pub sent: Sent,
    pub fate: Fate,
    pub call: usize,
}

// A message that a call posted.
pub(crate) fn sent_in(call: usize, message: Message) -> Sent
    ensures { result ≡ sent_in call message }
{
    match message {
        Message::Request(request) => Sent {
            kind: Kind::Request,
            from: Party::Console(console_of(request.transaction)),
            to: Party::Hall(request.to),
            call,
        },
        Message::Vote(vote) => Sent {
            kind: Kind::Vote,
            from: Party::Hall(vote.from),
            to: Party::Hall(vote.to),
            call,
        },
        Message::Reply(reply) => Sent {
            kind: Kind::Reply,
            from: Party::Hall(reply.from),
            to: Party::Console(console_of(reply.transaction)),
            call,
        },
    }
}
