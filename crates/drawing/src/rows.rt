// The rows: texts, and what is marked right across them.
use crate::layout::{DOWN, Layout, middle_of};
use crate::texts::{CallText, Row, ToldText};
use order::{Call, Said};
use std::io;

// A row that is filled with the colour of a class.
fn print_tint(rt: &impl Print, at: &Layout, class: &str, top: u64) -> io::Result<()> {
    let width = at.width;
    println!(rt;
        "<rect class=\"{class}\" x=\"0\" y=\"{top}\" width=\"{width}\" height=\"{DOWN}\"/>"
    )
}

// What is right across a row: a refusal, a line that cannot be read, or a beginning.
fn print_across(rt: &impl Print, at: &Layout, row: &Row, top: u64) -> io::Result<()> {
    match row.event {
        Ok((_, Err(_))) => print_tint(rt, at, "refused", top),
        Err(_) => print_tint(rt, at, "unread", top),
        Ok((Call::Open { .. }, Ok(Said::Nothing))) => {
            let width = at.width;
            println!(rt;
                "<line class=\"opening\" x1=\"0\" y1=\"{top}\" x2=\"{width}\" y2=\"{top}\"/>"
            )
        }
        Ok(_) => Ok(()),
    }
}

// The thin line that leads from a call to what it told.
fn print_guide(rt: &impl Print, at: &Layout, middle: u64) -> io::Result<()> {
    let from = at.left.saturating_sub(12);
    let to = at.right.saturating_sub(12);
    println!(rt; "<line class=\"row\" x1=\"{from}\" y1=\"{middle}\" x2=\"{to}\" y2=\"{middle}\"/>")
}

fn print_texts(rt: &impl Print, at: &Layout, row: &Row, base: u64) -> io::Result<()> {
    let line = row.line;
    println!(rt; "<text class=\"number\" x=\"44\" y=\"{base}\">{line}</text>")?;
    if let Ok((call, _)) = row.event {
        let call = CallText(call);
        println!(rt; "<text class=\"call\" x=\"54\" y=\"{base}\">{call}</text>")?;
    }
    let right = at.right;
    let told = ToldText(*row);
    println!(rt; "<text class=\"told\" x=\"{right}\" y=\"{base}\">{told}</text>")
}

pub(crate) fn print_rows(rt: &impl Print, at: &Layout, rows: &[Row]) -> io::Result<()> {
    for (place, row) in rows.iter().enumerate() {
        let middle = middle_of(place);
        print_across(rt, at, row, middle.saturating_sub(DOWN / 2))?;
        print_guide(rt, at, middle)?;
        print_texts(rt, at, row, middle.saturating_add(4))?;
    }
    Ok(())
}
