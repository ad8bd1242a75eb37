// Makes one morning's calls at a congress, and prints what each said and what the post then holds.
#![tactic(auto)]

mod calls;
mod words;

use calls::{Call, make, morning};
use congress::Congress;
use records::{Message, Request};
use std::io;
use words::Listed;

// The post of the morning has so many places.
const PLACES: usize = 6;

fn print_calls(
    rt: &impl Print,
    congress: &mut Congress,
    post: &mut [Message],
    calls: &[Call],
) -> io::Result<()> {
    println!(rt; "Calls")?;
    for call in calls {
        match make(congress, post, *call) {
            Ok(said) => println!(rt; "{call}: {said}")?,
            Err(refusal) => {
                let number = u8::from(refusal);
                println!(rt; "{call}: refused with {number}, {refusal}")?;
            }
        }
    }
    Ok(())
}

fn print_post(rt: &impl Print, post: &[Message]) -> io::Result<()> {
    println!(rt; "Post")?;
    for (place, message) in post.iter().enumerate() {
        let listed = Listed(*message);
        println!(rt; "{place}. {listed}")?;
    }
    Ok(())
}

fn main(rt: HostRuntime) -> io::Result<()> {
    let mut congress = Congress::new();
    let mut post = [Message::Request(Request::default()); PLACES];
    print_calls(&rt, &mut congress, &mut post, &morning())?;
    print_post(&rt, &post[..congress.messages().min(PLACES)])
}
