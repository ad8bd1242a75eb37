// What is promised of every list of calls that begins with an Open that is not refused, after each of its calls: theorems,
// with no code of their own. They hold over every book, on every congress and every post.
ghost use Rattle.order.specs.Promises.{OneOrder, AllOrNone, ConfirmedIsDone, KeepsWell, Always};
ghost use Rattle.order.specs.Removal.{RemovalHolds};
ghost use Rattle.roll.specs.Over.{IsRoll};

use book::Book;

// Each hall acts as if its parts were done one after another by stamp, which is one for a transaction at all halls.
pub fn one_order_holds<B: Book>(_book: &B) -> u8
    ensures { Always B.model (B.pages _book.now) (OneOrder B.model) }
{
    0
}

// No hall does its part of a transaction while another lets its part fall.
pub fn all_or_none_holds<B: Book>(_book: &B) -> u8
    ensures { Always B.model (B.pages _book.now) AllOrNone }
{
    0
}

// A transaction that its console was told to be confirmed has been done at every hall that it names.
pub fn confirmed_is_done<B: Book>(_book: &B) -> u8
    ensures { Always B.model (B.pages _book.now) ConfirmedIsDone }
{
    0
}

// Where the book is a roll of deputies over some book, nothing is well done under a removed grant until it is appointed again.
pub fn removal_holds<B: Book>(_book: &B) -> u8
    ensures { IsRoll B.model → Always B.model (B.pages _book.now) RemovalHolds }
{
    0
}

// The tables stay as every congress keeps them.
pub fn congress_is_kept<B: Book>(_book: &B) -> u8
    ensures { Always B.model (B.pages _book.now) KeepsWell }
{
    0
}
