// The parts of an issue: the operations of its halls.
ghost use Rattle.std.specs.Prelude.{◌≡◌, suc, slice_set};
ghost use Rattle.script.specs.Parts.{with_part, all_parts};
ghost use Rattle.script.specs.Words.{left};

use crate::operations::operation;
use crate::words::{Word, Words};
use crate::{Expected, Misread, Settings};
use records::{Below, Operation};

fn with_one(mut operations: [Operation; 8], hall: Below<8>, operation: Operation) -> [Operation; 8]
    ensures { result ≡ slice_set operations hall operation }
{
    operations[hall.get()] = operation;
    operations
}

// The operations of the halls with one part more, whose first word was read.
fn with_part(
    operations: [Operation; 8],
    first: Word,
    words: &mut Words,
    at: &Settings,
) -> Result<[Operation; 8], Misread>
    requires { words.old.place ≡ suc first.place }
    ensures { left result words.new.place words.new.rest.now ≡ with_part at.now operations first.entry.text.now first.entry.place words.old.rest.now }
{
    match first.text {
        b"at" => {
            let hall = words.hall()?;
            let operation = operation(words, at)?;
            Ok(with_one(operations, hall, operation))
        }
        b"all" => {
            let operation = operation(words, at)?;
            Ok([operation; 8])
        }
        _ => Err(first.misread(Expected::Part)),
    }
}

// The parts up to the end of the line, a later one in place of an earlier. They are no more than its bytes.
pub fn parts(mut words: Words, at: &Settings) -> Result<[Operation; 8], Misread>
    ensures { result ≡ all_parts at.now words.entry.place words.entry.rest.now }
{
    let mut operations = [Operation::default(); 8];
    for _ in 0..words.rest.len() {
        let first = words.next();
        if first.text.is_empty() {
            return Ok(operations);
        }
        operations = with_part(operations, first, &mut words, at)?;
    }
    Ok(operations)
}
