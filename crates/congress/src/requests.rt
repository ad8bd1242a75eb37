// Deliver, of a request: what becomes of it.
ghost use Rattle.std.specs.Prelude.{◌≡◌, ◌<◌, List};
ghost use Rattle.congress.specs.Kept.{locks};
ghost use Rattle.congress.specs.Meaning.{scene_of};
ghost use Rattle.congress.specs.Requests.{class_in, by_verdict, fate_locking, fate_timestamp, fate, is_old};
ghost use Rattle.records.specs.declared.messages.Message.{Message};

use super::fates::Fate;
use super::state::Congress;
use super::tables::{Hall, Mode};
use book::Book;
use records::{Answer, Class, Request, console_of, sequence_of};

// The class of a lawful request.
pub(crate) fn class_in(request: &Request) -> Class
    ensures { result ≡ class_in request.now }
{
    Class::try_from(request.class).unwrap_or_default()
}

// A coordinated part waits only if it would be well done.
fn by_verdict(answer: Answer) -> Fate
    ensures { result ≡ by_verdict answer }
{
    if answer.is_well_done() {
        Fate::Enters
    } else {
        Fate::Aborts(answer)
    }
}

impl Hall {
    pub(crate) fn is_locking(&self) -> bool
        ensures { result ≡ locks self.now.mode }
    {
        self.mode == Mode::Locking
    }

    // Whether it has taken this transaction's request, or a later one of the console.
    pub(crate) fn is_old(&self, transaction: u32) -> bool
        ensures { result ≡ is_old self.now transaction }
    {
        sequence_of(transaction) <= self.taken[console_of(transaction) as usize]
    }
}

impl Congress {
    // In locking mode: a key that is held is in the way of all, and then it goes by the class.
    fn fate_locking<B: Book>(&self, book: &B, request: &Request) -> Fate
        ensures { (post : List Message) → result ≡ fate_locking B.model (scene_of self.now post (B.pages book.now)) request.now }
    {
        if self.holds_key(request.to, B::keys(request.operation)) {
            return Fate::Conflicts;
        }
        match class_in(request) {
            Class::Single => Fate::Runs,
            Class::Independent => Fate::Enters,
            Class::Coordinated => by_verdict(book.verdict(request.to, request.operation)),
        }
    }

    // In timestamp mode: only a coordinated part needs the hall for itself.
    fn fate_timestamp<B: Book>(&self, book: &B, request: &Request) -> Fate
        ensures { (post : List Message) → result ≡ fate_timestamp B.model (scene_of self.now post (B.pages book.now)) request.now (class_in request.now) }
    {
        match class_in(request) {
            Class::Single | Class::Independent => Fate::Enters,
            Class::Coordinated => {
                if self.has_entries(request.to) {
                    return Fate::Conflicts;
                }
                by_verdict(book.verdict(request.to, request.operation))
            }
        }
    }

    // What becomes of a request; its hall is known to exist.
    pub(crate) fn fate<B: Book>(&self, book: &B, request: &Request) -> Fate
        requires { request.now.to < 8 }
        ensures { (post : List Message) → result ≡ fate B.model (scene_of self.now post (B.pages book.now)) request.now }
    {
        if self.halls[request.to as usize].is_locking() {
            self.fate_locking(book, request)
        } else {
            self.fate_timestamp(book, request)
        }
    }
}
