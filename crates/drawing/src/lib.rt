// Prints the picture of a script in SVG. docs/RULES.md, 'The picture', has all its elements.
#![tactic(auto)]

mod frame;
mod layout;
mod lines;
mod marks;
mod rows;
mod texts;
mod words;

use frame::print_frame;
use layout::layout_of;
use lines::{print_arrows, print_lifelines};
use marks::print_marks;
use picture::Arrow;
use rows::print_rows;
use std::io;
pub use texts::Row;
pub use words::{call_word, outcome_word, refusal_word};

// Prints the picture of a script's rows and of what became of the messages.
pub fn print_picture(rt: &HostRuntime, rows: &[Row], arrows: &[Arrow]) -> io::Result<()> {
    let at = layout_of(rt.alloc(), rows)?;
    print_frame(rt, &at)?;
    print_rows(rt, &at, rows)?;
    print_lifelines(rt, &at)?;
    print_marks(rt, &at, rows)?;
    print_arrows(rt, &at, arrows)?;
    println!(rt; "</svg>")
}
