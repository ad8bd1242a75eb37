// What an operation asks of the roll, as far as its own numbers tell, and the keys of the entries.
ghost use Rattle.std.specs.Prelude.{◌≡◌, ◌<◌};
ghost use Rattle.roll.specs.Asking.{entry_named, entry_to_write, token_appointed, asked, of_roll, entry_key};

use super::kinds::Kind;
use super::refusals::{Refusal, Refused};
use records::{Below, Operation};

// The entries of a hall, numbered from 0; each holds a token or is empty.
pub const ENTRIES: usize = 16;

// The chief's entry, and the grant that goes with it.
pub(crate) const CHIEF: u8 = 0;

// The token of an empty entry: a number and no Option, since docs/RULES.md writes a page so.
pub(crate) const EMPTY: u32 = 0;

// The key of entry 0; the others follow.
const FIRST_KEY: usize = 48;

#[derive(Clone, Copy, Debug, PartialEq, Eq, Hash)]
pub enum Ask {
    // what is no matter of the roll; a variant and no Option, since it is asked like the others, of the book below
    Other,
    // entry, and its token from now on
    Write(Below<ENTRIES>, u32),
    // entry
    Read(Below<ENTRIES>),
}

// The entry that an operation names.
fn entry_of(op: Operation) -> Result<Below<ENTRIES>, Refused>
    ensures { result ≡ entry_named op }
{
    Below::new(usize::from(op.a)).ok_or(Refused {
        why: Refusal::NoEntry,
        place: op.a,
    })
}

// The entry at which the chief appoints or removes: nobody else does, and never at the chief's own.
fn entry_of_chief(op: Operation) -> Result<Below<ENTRIES>, Refused>
    ensures { result ≡ entry_to_write op }
{
    if op.grant != CHIEF {
        return Err(Refused {
            why: Refusal::NotChief,
            place: u16::from(op.grant),
        });
    }
    let entry = entry_of(op)?;
    if entry.get() == usize::from(CHIEF) {
        return Err(Refused {
            why: Refusal::NoEntry,
            place: op.a,
        });
    }
    Ok(entry)
}

// The token of a deputy who is appointed.
fn token_of(op: Operation) -> Result<u32, Refused>
    ensures { result ≡ token_appointed op }
{
    if op.c < 1 {
        return Err(Refused {
            why: Refusal::NoToken,
            place: op.a,
        });
    }
    Ok(op.c as u32)
}

// What an operation asks whose grant stands.
pub(crate) fn ask_of(op: Operation) -> Result<Ask, Refused>
    ensures { result ≡ asked op }
{
    match Kind::try_from(op.kind) {
        Ok(Kind::Appoint) => Ok(Ask::Write(entry_of_chief(op)?, token_of(op)?)),
        Ok(Kind::Remove) => Ok(Ask::Write(entry_of_chief(op)?, EMPTY)),
        Ok(Kind::Read) => Ok(Ask::Read(entry_of(op)?)),
        Err(_) => Ok(Ask::Other),
    }
}

// Whether the kind is one of the roll's own.
pub(crate) fn is_of_roll(op: Operation) -> bool
    ensures { result ≡ of_roll op }
{
    Kind::try_from(op.kind).is_ok()
}

// Each entry has a key of its own; what is no entry has none.
pub(crate) fn key_of_entry(n: u16) -> u64
    ensures { result ≡ entry_key n }
{
    match Below::<ENTRIES>::new(usize::from(n)) {
        Some(entry) => 1 << (FIRST_KEY + entry.get()),
        None => 0,
    }
}
