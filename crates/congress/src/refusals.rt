// Why a call is refused.
ghost use Rattle.std.specs.Prelude.{◌≡◌};
ghost use Rattle.congress.specs.Refusals.{refusal_number};

use thiserror::Error;

#[derive(Clone, Copy, Debug, PartialEq, Eq, Hash, Error)]
pub enum Refusal {
    // no such console, hall or message
    #[error("not there")]
    NotThere = 1,
    // the console has an open transaction
    #[error("the console has an open transaction")]
    Busy = 2,
    // the class is unknown, or the halls do not fit it or are not open
    #[error("the halls do not fit")]
    BadHalls = 3,
    // the console's sequences are used up
    #[error("the console's sequences are used up")]
    UsedUp = 4,
    // a time or a stamp would pass the last stamp
    #[error("past the last stamp")]
    TooLate = 5,
    // the post lacks places
    #[error("no room in the post")]
    NoRoom = 6,
    // the queue is full
    #[error("no room in the queue")]
    QueueFull = 7,
    // nothing may run
    #[error("nothing may run")]
    NothingRuns = 8,
    // the post is shorter than the count of its messages
    #[error("the post is too short")]
    ShortPost = 9,
}

impl From<Refusal> for u8 {
    ghost from_gives = { λ refusal number. number ≡ refusal_number refusal };

    fn from(refusal: Refusal) -> u8 {
        refusal as u8
    }
}
