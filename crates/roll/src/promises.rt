// What the roll promises of its entries, whatever book is below: theorems, with no code of their own.
ghost use Rattle.roll.specs.Over.{IsRoll, roll_is_roll};
ghost use Rattle.roll.specs.Promises.{RemovalEmpties, EntriesStay};
ghost use Rattle.roll.specs.Roll.{roll_model};

use book::Book;

// Under a grant that was removed nothing is done.
#[tactic(auto, using(crate::proofs::Entries::removal_empties_lem))]
pub fn removal_empties<B: Book>() -> u8
    ensures { RemovalEmpties B.model }
{
    0
}

// Nothing but the chief's appointments and removals changes an entry.
pub fn entries_stay<B: Book>() -> u8
    ensures { EntriesStay B.model }
{
    0
}

// The roll over any book is a roll over some book.
#[tactic(auto, using(crate::specs::Over::roll_is_roll))]
pub fn is_a_roll<B: Book>() -> u8
    ensures { IsRoll (roll_model B.model) }
{
    0
}
