// What the calls did at the halls.
use crate::layout::{Layout, middle_of};
use crate::texts::Row;
use congress::{Outcome, Report};
use order::{Call, Said};
use picture::Party;
use std::io;

// What a hall did with its part: it was done, done with a fault, or fell.
fn part_class(report: Report) -> Option<&'static str> {
    match report.outcome {
        Outcome::DoneAtOnce | Outcome::Done if report.answer.is_well_done() => Some("done"),
        Outcome::DoneAtOnce | Outcome::Done => Some("fault"),
        Outcome::MetConflict | Outcome::Aborted | Outcome::Removed => Some("fallen"),
        _ => None,
    }
}

fn print_part(rt: &impl Print, at: &Layout, report: Report, middle: u64) -> io::Result<()> {
    let Some(class) = part_class(report) else {
        return Ok(());
    };
    let x = at.across(at.lifeline(Party::Hall(report.hall)));
    let left = x.saturating_sub(4);
    let top = middle.saturating_sub(4);
    println!(rt; "<rect class=\"{class}\" x=\"{left}\" y=\"{top}\" width=\"8\" height=\"8\"/>")
}

fn print_clock(rt: &impl Print, at: &Layout, hall: u8, middle: u64) -> io::Result<()> {
    let x = at.across(at.lifeline(Party::Hall(hall)));
    let top = middle.saturating_sub(5);
    println!(rt; "<path class=\"clock\" d=\"M{x} {top}l5 5l-5 5l-5-5z\"/>")
}

pub(crate) fn print_marks(rt: &impl Print, at: &Layout, rows: &[Row]) -> io::Result<()> {
    for (place, row) in rows.iter().enumerate() {
        let middle = middle_of(place);
        match row.event {
            Ok((_, Ok(Said::Report(report)))) => print_part(rt, at, report, middle)?,
            Ok((Call::Clock { hall, .. }, Ok(_))) => print_clock(rt, at, hall, middle)?,
            _ => {}
        }
    }
    Ok(())
}
