// What Deliver and Work tell.
ghost use Rattle.std.specs.Prelude.{◌≡◌};
ghost use Rattle.congress.specs.Outcomes.{outcome_number};
ghost use Rattle.congress.specs.Sending.{no_answer};

use records::Answer;

#[derive(Clone, Copy, Debug, Default, PartialEq, Eq, Hash)]
pub enum Outcome {
    // the message changed nothing
    #[default]
    PassedOver = 0,
    // the hall's part waits in the queue
    Entered = 1,
    // a single was done at once
    DoneAtOnce = 2,
    // the request met conflict
    MetConflict = 3,
    // the part would have been done with a fault
    Aborted = 4,
    // the vote is in the entry
    Counted = 5,
    // with it every named hall has voted
    Readied = 6,
    // the vote removed the entry
    Removed = 7,
    // the console has this hall's reply
    Replied = 8,
    // with it every named hall has replied
    Confirmed = 9,
    // the reply ended the console's transaction
    Freed = 10,
    // a part that waited was done
    Done = 11,
}

impl From<Outcome> for u8 {
    ghost from_gives = { λ outcome number. number ≡ outcome_number outcome };

    fn from(outcome: Outcome) -> u8 {
        outcome as u8
    }
}

#[derive(Clone, Copy, Debug, Default, PartialEq, Eq, Hash)]
pub struct Report {
    pub outcome: Outcome,
    pub transaction: u32,
    pub hall: u8,
    pub stamp: u64,
    pub answer: Answer,
}

// The answer that says nothing.
pub(crate) fn no_answer() -> Answer
    ensures { result ≡ no_answer }
{
    Answer::default()
}
