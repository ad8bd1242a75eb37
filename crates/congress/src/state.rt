// A congress: its halls, its consoles, the queue, and the count of messages in the post, with what they keep.
ghost use Rattle.std.specs.Prelude.{◌≡◌, ◌≤◌, true, take};
ghost use Rattle.congress.specs.Kept.{kept};

use super::tables::{Console, Entry, Hall};

#[derive(Drop)]
pub struct Congress {
    // its first `opened` halls are open, and the first `waiting` places of its queue in use:
    // a table is an array of structs in fixed memory (docs/DECISIONS.md, Forms)
    pub(crate) opened: u8,
    pub(crate) halls: [Hall; 8],
    pub(crate) consoles: [Console; 16],
    pub(crate) queue: [Entry; 64],
    pub(crate) waiting: usize,
    // a count and no slice, since the post is lent anew with each call
    pub(crate) count: usize,
    ghost few_halls: { opened ≤ 8 },
    ghost few_entries: { waiting ≤ 64 },
    ghost few_messages: { count ≤ 1024 },
    ghost kept: { kept halls (take waiting queue) ≡ true },
}
