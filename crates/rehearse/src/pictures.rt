// The picture of a script.
ghost use Rattle.std.specs.Prelude.{◌≡◌, IfOk};
ghost use Rattle.picture.specs.Pictures.{arrows_of};
ghost use Rattle.rehearse.specs.Rehearsal.{first_scene, rehearsal_told};
ghost use Rattle.roll.specs.Roll.{roll_model, page_of};

use crate::lines::Script;
use book::Book;
use congress::{Congress, Refusal};
use drawing::{Row, print_picture};
use order::Said;
use picture::{Picture, picture_of};
use records::{Message, Request};
use roll::Roll;
use std::alloc::{AllocError, Global};
use std::io;

// What the calls of a script tell, made in turn at a new congress, and what becomes of their messages.
fn drawn_by<B: Book>(
    heap: Global,
    script: &Script,
    roll: &mut Roll<B>,
) -> Result<Picture, AllocError>
    ensures told { IfOk result (λ p. p.told.items ≡ rehearsal_told (roll_model B.model) script.now.at.places (page_of B.pages roll.old) script.now.calls.items) }
    ensures arrows { IfOk result (λ p. p.arrows.items ≡ arrows_of (roll_model B.model) script.now.calls.items (first_scene script.now.at.places (page_of B.pages roll.old))) }
{
    let mut congress = Congress::new();
    let mut post = vec![in heap; Message::Request(Request::default()); script.at.places as usize]?;
    picture_of(
        heap,
        &mut congress,
        roll,
        post.as_mut_slice(),
        script.calls.as_slice(),
    )
}

// A row for each line that makes a call or cannot be read.
fn rows_of(
    heap: Global,
    script: &Script,
    told: &[Result<Said, Refusal>],
) -> Result<Vec<Row>, AllocError> {
    let mut made = script.calls.iter().zip(told.iter());
    let mut rows = Vec::new(heap);
    for mark in script.marks.iter() {
        let line = mark.line;
        match mark.misread {
            Some(misread) => rows.push(Row {
                line,
                event: Err(misread),
            })?,
            None => {
                if let Some((call, told)) = made.next() {
                    rows.push(Row {
                        line,
                        event: Ok((*call, *told)),
                    })?;
                }
            }
        }
    }
    Ok(rows)
}

// Makes the calls of a script over a roll, and prints the picture.
pub fn draw<B: Book + Drop>(
    rt: &HostRuntime,
    script: &Script,
    mut roll: Roll<B>,
) -> io::Result<()> {
    let heap = rt.alloc();
    let picture = drawn_by(heap, script, &mut roll)?;
    let rows = rows_of(heap, script, picture.told.as_slice())?;
    print_picture(rt, rows.as_slice(), picture.arrows.as_slice())
}
