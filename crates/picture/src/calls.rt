// Calls are made one after another, and what becomes of their messages is written down.
ghost use Rattle.std.specs.Prelude.{◌≡◌, take, IfOk};
ghost use Rattle.congress.specs.Meaning.{scene_of};
ghost use Rattle.order.specs.Conduct.{told};
ghost use Rattle.order.specs.Runs.{beginning};
ghost use Rattle.picture.specs.Pictures.{arrows_of};
ghost use Rattle.picture.specs.Posts.{TrueToPost};

use crate::arrows::Arrow;
use crate::ledger::Ledger;
use book::Book;
use congress::{Congress, Refusal};
use order::{Call, Said, make};
use records::Message;
use std::alloc::{AllocError, Global};

// What the calls of a list told, and what became of the messages that they posted.
#[derive(Drop)]
pub struct Picture {
    pub told: Vec<Result<Said, Refusal>>,
    pub arrows: Vec<Arrow>,
}

// The first so many places of a post, or all of them.
fn first_places(post: &[Message], count: usize) -> &[Message]
    ensures { result.now ≡ take count post.now }
{
    post.get(..count).unwrap_or(post)
}

// Makes the calls of a list in turn. What is written down of the messages in the post is true of them after each call, if none
// was there before the first; so an arrow is that of the message that was delivered or dropped.
#[tactic(auto, using(crate::proofs::Posts::true_to_post))]
pub fn picture_of<B: Book>(
    heap: Global,
    congress: &mut Congress,
    book: &mut B,
    post: &mut [Message],
    calls: &[Call],
) -> Result<Picture, AllocError>
    ensures told { IfOk result (λ p. p.told.items ≡ told B.model calls.now (beginning (scene_of congress.old post.old (B.pages book.old)))) }
    ensures posts { TrueToPost B.model calls.now (scene_of congress.old post.old (B.pages book.old)) }
    ensures arrows { IfOk result (λ p. p.arrows.items ≡ arrows_of B.model calls.now (scene_of congress.old post.old (B.pages book.old))) }
{
    let mut told = Vec::new(heap);
    let mut ledger = Ledger::new(heap);
    for (place, call) in calls.iter().enumerate() {
        let said = make(congress, book, post, *call);
        let messages = first_places(post, congress.messages());
        ledger.take(place, *call, said, messages)?;
        told.push(said)?;
    }
    Ok(Picture {
        told,
        arrows: ledger.end()?,
    })
}
