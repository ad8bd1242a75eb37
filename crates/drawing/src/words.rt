// The words of calls, outcomes and refusals.
use congress::{Outcome, Refusal};
use order::Call;

// The first word of a call's line in the script.
pub fn call_word(call: &Call) -> &'static str {
    match call {
        Call::Open { .. } => "open",
        Call::Issue { .. } => "issue",
        Call::Deliver { .. } => "deliver",
        Call::Work { .. } => "work",
        Call::Clock { .. } => "clock",
        Call::Drop { .. } => "drop",
    }
}

pub fn outcome_word(outcome: Outcome) -> &'static str {
    match outcome {
        Outcome::PassedOver => "passed-over",
        Outcome::Entered => "entered",
        Outcome::DoneAtOnce => "done-at-once",
        Outcome::MetConflict => "met-conflict",
        Outcome::Aborted => "aborted",
        Outcome::Counted => "counted",
        Outcome::Readied => "readied",
        Outcome::Removed => "removed",
        Outcome::Replied => "replied",
        Outcome::Confirmed => "confirmed",
        Outcome::Freed => "freed",
        Outcome::Done => "done",
    }
}

pub fn refusal_word(refusal: Refusal) -> &'static str {
    match refusal {
        Refusal::NotThere => "not-there",
        Refusal::Busy => "busy",
        Refusal::BadHalls => "bad-halls",
        Refusal::UsedUp => "used-up",
        Refusal::TooLate => "too-late",
        Refusal::NoRoom => "no-room",
        Refusal::QueueFull => "queue-full",
        Refusal::NothingRuns => "nothing-runs",
        Refusal::ShortPost => "short-post",
    }
}
