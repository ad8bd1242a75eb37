// Lifelines, and the arrows between them.
use crate::layout::Layout;
use picture::{Arrow, Fate, Kind, Party};
use std::{fmt, io};

fn kind_word(kind: Kind) -> &'static str {
    match kind {
        Kind::Request => "request",
        Kind::Vote => "vote",
        Kind::Reply => "reply",
    }
}

fn fate_word(fate: Fate) -> &'static str {
    match fate {
        Fate::Arrived => "arrived",
        Fate::Again => "again",
        Fate::Lost => "lost",
        Fate::Left => "left",
    }
}

fn print_lifeline(rt: &impl Print, at: &Layout, party: Party) -> io::Result<()> {
    let (who, number) = match party {
        Party::Console(number) => ("console", number),
        Party::Hall(number) => ("hall", number),
    };
    let x = at.across(at.lifeline(party));
    let bottom = at.height.saturating_sub(4);
    println!(rt; "<line class=\"{who}\" x1=\"{x}\" y1=\"94\" x2=\"{x}\" y2=\"{bottom}\"/>")?;
    println!(rt; "<text class=\"heading over\" x=\"{x}\" y=\"88\">{who} {number}</text>")
}

pub(crate) fn print_lifelines(rt: &impl Print, at: &Layout) -> io::Result<()> {
    for (console, is_named) in at.consoles.iter().enumerate() {
        if *is_named {
            print_lifeline(rt, at, Party::Console(console as u8))?;
        }
    }
    for hall in 0..at.halls {
        print_lifeline(rt, at, Party::Hall(hall))?;
    }
    Ok(())
}

// From a lifeline, a step for each lifeline on the way to another.
fn towards(at: &Layout, from: usize, to: usize, step: u64) -> u64 {
    let x = at.across(from);
    if from <= to {
        x.saturating_add(step.saturating_mul((to - from) as u64))
    } else {
        x.saturating_sub(step.saturating_mul((from - to) as u64))
    }
}

// How an arrow goes on from where it begins. One that comes to its receiver is bent so that it ends level with its row.
#[derive(Clone, Copy, Debug, PartialEq, Eq, Hash)]
enum Way {
    Straight { x: u64, y: u64 },
    Bent { by: u64, x: u64, y: u64 },
}

impl fmt::Display for Way {
    fn fmt<W: fmt::Write>(&self, f: &mut fmt::Formatter<W>) -> fmt::Result {
        match self {
            Way::Straight { x, y } => write!(f, "L{x} {y}"),
            Way::Bent { by, x, y } => write!(f, "Q{by} {y} {x} {y}"),
        }
    }
}

fn way_of(at: &Layout, arrow: &Arrow) -> Way {
    let from = at.lifeline(arrow.sent.from);
    let to = at.lifeline(arrow.sent.to);
    let y = at.down(arrow.call);
    match arrow.fate {
        Fate::Arrived | Fate::Again => Way::Bent {
            by: towards(at, from, to, 36),
            x: at.across(to),
            y,
        },
        Fate::Lost => Way::Straight {
            x: towards(at, from, to, 30),
            y,
        },
        Fate::Left => Way::Straight {
            x: towards(at, from, to, 9),
            y: y.saturating_add(9),
        },
    }
}

pub(crate) fn print_arrows(rt: &impl Print, at: &Layout, arrows: &[Arrow]) -> io::Result<()> {
    for arrow in arrows.iter() {
        let kind = kind_word(arrow.sent.kind);
        let fate = fate_word(arrow.fate);
        let x = at.across(at.lifeline(arrow.sent.from));
        let y = at.down(arrow.sent.call);
        let way = way_of(at, arrow);
        println!(rt; "<path class=\"{kind} {fate}\" d=\"M{x} {y}{way}\"/>")?;
    }
    Ok(())
}
