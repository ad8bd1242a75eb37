// Where everything stands. Sums that no picture reaches stop at the largest number.
use crate::texts::{CallText, Row, ToldText};
use order::{Call, Said};
use picture::Party;
use std::alloc::{AllocError, Global};
use std::fmt::Display;

// Between lifelines, and between rows.
const ACROSS: u64 = 72;

pub(crate) const DOWN: u64 = 18;

// The middle of the first row.
const FIRST: u64 = 112;

// So much for a letter of a call, and of what it told.
const CALL_LETTER: u64 = 7;

const TOLD_LETTER: u64 = 6;

// Of the narrowest picture, which has room for the legend.
const NARROWEST: u64 = 640;

// Letters in the headings of calls and of what they told.
const CALL_HEADING: usize = 4;

const TOLD_HEADING: usize = 33;

#[derive(Drop)]
pub(crate) struct Layout {
    // which consoles have a lifeline
    pub(crate) consoles: [bool; 16],
    // how many halls have one
    pub(crate) halls: u8,
    // the first lifeline, and what the calls told
    pub(crate) left: u64,
    pub(crate) right: u64,
    pub(crate) width: u64,
    pub(crate) height: u64,
    // the middles of the calls' rows
    middles: Vec<u64>,
}

// The middle of a row.
pub(crate) fn middle_of(row: usize) -> u64 {
    (row as u64).saturating_mul(DOWN).saturating_add(FIRST)
}

// The consoles that the calls Issue name.
fn consoles_of(rows: &[Row]) -> [bool; 16] {
    let mut named = [false; 16];
    for row in rows.iter() {
        if let Ok((Call::Issue { console, .. }, _)) = row.event {
            if let Some(is_named) = named.get_mut(console as usize) {
                *is_named = true;
            }
        }
    }
    named
}

// The most halls that an Open has opened.
fn halls_of(rows: &[Row]) -> u8 {
    let mut most = 0;
    for row in rows.iter() {
        if let Ok((Call::Open { halls }, Ok(Said::Nothing))) = row.event {
            most = most.max(halls);
        }
    }
    most
}

fn length_of<T: Display>(heap: Global, text: &T) -> Result<usize, AllocError> {
    Ok(text.to_string(heap)?.len())
}

// The length of the longest text of a call.
fn longest_call(heap: Global, rows: &[Row]) -> Result<usize, AllocError> {
    let mut longest = CALL_HEADING;
    for row in rows.iter() {
        if let Ok((call, _)) = row.event {
            longest = longest.max(length_of(heap, &CallText(call))?);
        }
    }
    Ok(longest)
}

// The length of the longest text of what was told.
fn longest_told(heap: Global, rows: &[Row]) -> Result<usize, AllocError> {
    let mut longest = TOLD_HEADING;
    for row in rows.iter() {
        longest = longest.max(length_of(heap, &ToldText(*row))?);
    }
    Ok(longest)
}

// The middles of the rows that make a call.
fn middles_of(heap: Global, rows: &[Row]) -> Result<Vec<u64>, AllocError> {
    let mut middles = Vec::new(heap);
    for (place, row) in rows.iter().enumerate() {
        if row.event.is_ok() {
            middles.push(middle_of(place))?;
        }
    }
    Ok(middles)
}

fn count_of(consoles: &[bool]) -> usize {
    consoles.iter().filter(|is_named| **is_named).count()
}

// How wide so many letters are.
fn wide(letters: usize, letter: u64) -> u64 {
    (letters as u64).saturating_mul(letter)
}

fn across(lifelines: usize) -> u64 {
    (lifelines as u64).saturating_mul(ACROSS)
}

// Where the texts of what was told begin.
fn right_of(left: u64, lifelines: usize) -> u64 {
    match lifelines.checked_sub(1) {
        Some(last) => left.saturating_add(across(last)).saturating_add(42),
        None => left,
    }
}

pub(crate) fn layout_of(heap: Global, rows: &[Row]) -> Result<Layout, AllocError> {
    let consoles = consoles_of(rows);
    let halls = halls_of(rows);
    let left = wide(longest_call(heap, rows)?, CALL_LETTER).saturating_add(78);
    let lifelines = count_of(&consoles).saturating_add(halls as usize);
    let right = right_of(left, lifelines);
    let told = wide(longest_told(heap, rows)?, TOLD_LETTER);
    Ok(Layout {
        consoles,
        halls,
        left,
        right,
        width: right.saturating_add(told).saturating_add(20).max(NARROWEST),
        height: middle_of(rows.len()),
        middles: middles_of(heap, rows)?,
    })
}

impl Layout {
    // The lifeline of a party, counted from 0.
    pub(crate) fn lifeline(&self, party: Party) -> usize {
        match party {
            Party::Console(console) => {
                let before = self.consoles.iter().take(console as usize);
                before.filter(|is_named| **is_named).count()
            }
            Party::Hall(hall) => count_of(&self.consoles).saturating_add(hall as usize),
        }
    }

    // Where a lifeline stands.
    pub(crate) fn across(&self, lifeline: usize) -> u64 {
        across(lifeline).saturating_add(self.left)
    }

    // The middle of the row of a call.
    pub(crate) fn down(&self, call: usize) -> u64 {
        self.middles.get(call).copied().unwrap_or(FIRST)
    }
}
