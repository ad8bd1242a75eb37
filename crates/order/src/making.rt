// Makes calls at a congress, and states what is promised of them.
ghost use Rattle.std.specs.Prelude.{◌≡◌, [], ◌∷◌, length, nat_le, is_ok, OnOk, OnErr};
ghost use Rattle.congress.specs.Meaning.{scene_of};
ghost use Rattle.order.specs.Conduct.{told, Promised, BeginsWithOpen, AfterEach, LeadsOn};
ghost use Rattle.order.specs.Runs.{beginning, run, step};
ghost use Rattle.std.proofs.lemmas.List.Edits.{sets};

use super::calls::{Call, Said};
use book::Book;
use congress::{Congress, Refusal};
use records::Message;
use thiserror::Error;

// There are fewer places for what is told than calls.
#[derive(Clone, Copy, Debug, PartialEq, Eq, Hash, Error)]
#[error("fewer places for what is told than calls")]
pub struct TooShort;

// Makes a call by its kind.
fn make_by_kind<B: Book>(
    congress: &mut Congress,
    book: &mut B,
    post: &mut [Message],
    call: Call,
) -> Result<Said, Refusal>
    ensures { (result, scene_of congress.new post.new (B.pages book.new)) ≡ step B.model call (scene_of congress.old post.old (B.pages book.old)) }
{
    match call {
        Call::Open { halls } => congress.open(halls).map(|_| Said::Nothing),
        Call::Issue {
            console,
            class,
            halls,
            operations,
        } => congress
            .issue(post, console, class, halls, operations)
            .map(Said::Number),
        Call::Deliver { place } => congress.deliver(book, post, place).map(Said::Report),
        Call::Work { hall } => congress.work(book, post, hall).map(Said::Report),
        Call::Clock { hall, time } => congress.set_clock(hall, time).map(|_| Said::Nothing),
        Call::Drop { place } => congress.drop_message(post, place).map(|_| Said::Nothing),
    }
}

// Makes one call. Wherever a list of calls has led to this congress, post and book, it leads on by this call, and all is
// promised there if it is or follows an Open that is not refused.
pub fn make<B: Book>(
    congress: &mut Congress,
    book: &mut B,
    post: &mut [Message],
    call: Call,
) -> Result<Said, Refusal>
    ensures step { (result, scene_of congress.new post.new (B.pages book.new)) ≡ step B.model call (scene_of congress.old post.old (B.pages book.old)) }
    ensures promises { LeadsOn B.model (call ∷ []) (scene_of congress.old post.old (B.pages book.old)) (scene_of congress.new post.new (B.pages book.new)) }
{
    make_by_kind(congress, book, post, call)
}

// Makes the calls of a list in turn, and writes what each tells at the places of `answers`, the rest of which stays. Nothing is done
// where there are fewer places than calls.
pub fn conduct<B: Book>(
    congress: &mut Congress,
    book: &mut B,
    post: &mut [Message],
    calls: &[Call],
    answers: &mut [Result<Said, Refusal>],
) -> Result<(), TooShort>
    ensures fits { is_ok result ≡ nat_le (length calls.now) (length answers.old) }
    ensures left { OnOk result (scene_of congress.new post.new (B.pages book.new) ≡ (run B.model calls.now (beginning (scene_of congress.old post.old (B.pages book.old)))).now) }
    ensures told { OnOk result (answers.new ≡ sets answers.old 0 (told B.model calls.now (beginning (scene_of congress.old post.old (B.pages book.old))))) }
    ensures refused { OnErr result ((scene_of congress.new post.new (B.pages book.new) ≡ scene_of congress.old post.old (B.pages book.old)) × (answers.new ≡ answers.old)) }
    ensures promises { BeginsWithOpen calls.now → AfterEach B.model calls.now (scene_of congress.old post.old (B.pages book.old)) (Promised B.model) }
    ensures goes_on { OnOk result (LeadsOn B.model calls.now (scene_of congress.old post.old (B.pages book.old)) (scene_of congress.new post.new (B.pages book.new))) }
{
    if answers.len() < calls.len() {
        return Err(TooShort);
    }
    for (place, call) in calls.iter().enumerate() {
        answers[place] = make(congress, book, post, *call);
    }
    Ok(())
}
