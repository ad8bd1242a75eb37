// What is written down of the post while calls are made.
ghost use Rattle.std.specs.Prelude.{◌≡◌, [], ◌∷◌, ◌++◌, ◌<◌, length, drop, map, IfOk, OnOk};
ghost use Rattle.picture.specs.Arrows.{Drawn, drawn, nothing_drawn, new_in_post, left_over, with_arrow, delivered, lost, opened, posted, called, ended};

use crate::arrows::{Arrow, Fate, Sent, sent_in};
use congress::Refusal;
use order::{Call, Said};
use records::Message;
use std::alloc::{AllocError, Global};

// A message in the post.
#[derive(Clone, Copy, Debug, PartialEq, Eq, Hash)]
pub(crate) struct InPost {
    pub(crate) sent: Sent,
    pub(crate) is_delivered: bool,
}

#[derive(Drop)]
pub(crate) struct Ledger {
    // the messages in the post, by place
    pub(crate) in_post: Vec<InPost>,
    pub(crate) arrows: Vec<Arrow>,
}

// An arrow for each message that was never delivered.
fn leave(arrows: &mut Vec<Arrow>, in_post: &[InPost]) -> Result<(), AllocError>
    ensures { OnOk result (arrows.new.items ≡ arrows.old.items ++ left_over in_post.now) }
{
    for one in in_post.iter() {
        if !one.is_delivered {
            arrows.push(Arrow {
                sent: one.sent,
                fate: Fate::Left,
                call: one.sent.call,
            })?;
        }
    }
    Ok(())
}

// Messages that a call posted come to the end of the post.
fn put(in_post: &mut Vec<InPost>, call: usize, new: &[Message]) -> Result<(), AllocError>
    ensures { OnOk result (in_post.new.items ≡ in_post.old.items ++ map (new_in_post call) new.now) }
{
    for message in new.iter() {
        in_post.push(InPost {
            sent: sent_in(call, *message),
            is_delivered: false,
        })?;
    }
    Ok(())
}

// The messages past the first so many.
fn past(messages: &[Message], known: usize) -> &[Message]
    ensures { result.now ≡ drop known messages.now }
{
    messages.get(known..).unwrap_or(&[])
}

impl Ledger {
    pub(crate) fn new(heap: Global) -> Ledger
        ensures { drawn result ≡ nothing_drawn }
    {
        Ledger {
            in_post: Vec::new(heap),
            arrows: Vec::new(heap),
        }
    }

    fn draw(&mut self, sent: Sent, fate: Fate, call: usize) -> Result<(), AllocError>
        ensures { OnOk result (drawn self.new ≡ with_arrow (drawn self.old) (record { sent = sent; fate = fate; call = call })) }
    {
        self.arrows.push(Arrow { sent, fate, call })?;
        Ok(())
    }

    // The message at a place is delivered, and stays in the post.
    fn deliver(&mut self, call: usize, place: usize) -> Result<(), AllocError>
        ensures { OnOk result (drawn self.new ≡ delivered call place (drawn self.old)) }
    {
        if place >= self.in_post.len() {
            return Ok(());
        }
        let InPost { sent, is_delivered } = self.in_post[place];
        self.in_post[place].is_delivered = true;
        let fate = if is_delivered {
            Fate::Again
        } else {
            Fate::Arrived
        };
        self.draw(sent, fate, call)
    }

    // The message at a place is dropped: the last takes its place.
    fn lose(&mut self, call: usize, place: usize) -> Result<(), AllocError>
        ensures { OnOk result (drawn self.new ≡ lost call place (drawn self.old)) }
    {
        if place >= self.in_post.len() {
            return Ok(());
        }
        let InPost { sent, is_delivered } = self.in_post.swap_remove(place);
        if is_delivered {
            return Ok(());
        }
        self.draw(sent, Fate::Lost, call)
    }

    // An Open leaves no message in the post.
    fn open(&mut self) -> Result<(), AllocError>
        ensures { OnOk result (drawn self.new ≡ opened (drawn self.old)) }
    {
        leave(&mut self.arrows, self.in_post.as_slice())?;
        self.in_post.clear();
        Ok(())
    }

    // What a call that was not refused does to the messages that were in the post.
    fn follow(&mut self, call: usize, made: Call) -> Result<(), AllocError>
        ensures { OnOk result (drawn self.new ≡ called call made (drawn self.old)) }
    {
        match made {
            Call::Open { .. } => self.open(),
            Call::Deliver { place } => self.deliver(call, place),
            Call::Drop { place } => self.lose(call, place),
            Call::Issue { .. } | Call::Work { .. } | Call::Clock { .. } => Ok(()),
        }
    }

    // Takes a call with what it told and the messages that were in the post after it.
    pub(crate) fn take(
        &mut self,
        call: usize,
        made: Call,
        told: Result<Said, Refusal>,
        messages: &[Message],
    ) -> Result<(), AllocError>
        ensures { OnOk result (drawn self.new ≡ posted call made told messages.now (drawn self.old)) }
    {
        if told.is_err() {
            return Ok(());
        }
        self.follow(call, made)?;
        let new = past(messages, self.in_post.len());
        put(&mut self.in_post, call, new)
    }

    // The arrows, with those of the messages left at the end.
    pub(crate) fn end(self) -> Result<Vec<Arrow>, AllocError>
        ensures { IfOk result (λ arrows. arrows.items ≡ ended (drawn self)) }
    {
        let Ledger {
            in_post,
            mut arrows,
        } = self;
        leave(&mut arrows, in_post.as_slice())?;
        Ok(arrows)
    }
}
