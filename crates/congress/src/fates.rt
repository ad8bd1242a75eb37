// What becomes of a request that its hall takes.
use records::Answer;

#[derive(Clone, Copy, Debug, PartialEq, Eq, Hash)]
pub enum Fate {
    // its part waits in the queue
    Enters,
    // its part is done at once
    Runs,
    // an entry of the hall is in its way
    Conflicts,
    // its part would be done with this fault
    Aborts(Answer),
}
