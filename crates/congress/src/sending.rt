// Messages go to the end of the post.
ghost use Rattle.std.specs.Prelude.{◌≡◌, ◌+◌, ◌<◌, ◌≤◌, [], ◌∷◌, min, length};
ghost use Rattle.congress.specs.Meaning.{with_post};
ghost use Rattle.congress.specs.Sending.{is_other, requests, votes_of, reply_of};
ghost use Rattle.congress.specs.State.{posting};
ghost use Rattle.records.specs.Halls.{bit};

use super::state::Congress;
use records::{Answer, Message, Operation, Reply, Request, Vote, has};

// Whether a request goes to a hall.
#[tactic(auto, using(crate::proofs::Sent::named))]
fn is_asked(halls: u8, to: u8) -> bool
    requires { to < 8 }
    ensures { result ≡ bit halls to }
{
    has(halls, to)
}

// Whether a hall tells another of its part of a transaction at these halls.
#[tactic(auto, using(crate::proofs::Sent::named))]
fn is_told(halls: u8, own: u8, to: u8) -> bool
    requires { to < 8 }
    ensures { result ≡ is_other halls own to }
{
    has(halls, to) && to != own
}

impl Congress {
    // A message goes to the end of the post.
    fn send(&mut self, post: &mut [Message], message: Message)
        requires { self.old.count < min (length post.old) 1024 }
        ensures { with_post self.new post.new ≡ posting (with_post self.old post.old) (message ∷ []) }
    {
        post[self.count] = message;
        self.count += 1;
    }

    // The requests of a draft go to the end of the post, ascending by hall.
    #[tactic(auto, using(crate::proofs::Sent::requests_is))]
    pub(crate) fn send_requests(
        &mut self,
        post: &mut [Message],
        draft: Request,
        operations: &[Operation; 8],
    )
        requires { self.old.count + length (requests draft operations.now) ≤ min (length post.old) 1024 }
        ensures { with_post self.new post.new ≡ posting (with_post self.old post.old) (requests draft operations.now) }
    {
        for (hall, operation) in operations.iter().enumerate() {
            let to = hall as u8;
            if is_asked(draft.halls, to) {
                let request = Request {
                    to,
                    operation: *operation,
                    ..draft
                };
                self.send(post, Message::Request(request));
            }
        }
    }

    // A hall's votes on its part of a transaction go to the other halls named, ascending.
    #[tactic(auto, using(crate::proofs::Sent::votes_are))]
    pub(crate) fn send_votes(
        &mut self,
        post: &mut [Message],
        transaction: u32,
        own: u8,
        halls: u8,
        stamp: u64,
        status: u8,
    )
        requires { self.old.count + length (votes_of transaction own halls stamp status) ≤ min (length post.old) 1024 }
        ensures { with_post self.new post.new ≡ posting (with_post self.old post.old) (votes_of transaction own halls stamp status) }
    {
        for to in 0..8u8 {
            if is_told(halls, own, to) {
                let vote = Vote {
                    transaction,
                    from: own,
                    to,
                    stamp,
                    status,
                };
                self.send(post, Message::Vote(vote));
            }
        }
    }

    // A reply goes to the end of the post.
    pub(crate) fn send_reply(
        &mut self,
        post: &mut [Message],
        transaction: u32,
        from: u8,
        stamp: u64,
        status: u8,
        answer: Answer,
    )
        requires { self.old.count < min (length post.old) 1024 }
        ensures { with_post self.new post.new ≡ posting (with_post self.old post.old) (reply_of transaction from stamp status answer ∷ []) }
    {
        let reply = Reply {
            transaction,
            from,
            stamp,
            status,
            answer,
        };
        self.send(post, Message::Reply(reply));
    }
}
