// Scores one hall's sheet from standard input and prints the account. The gate runs a program crate on one sheet, so
// scoresheet_long, scoresheet_bridge and scoresheet_nowhere have the same text.
#![tactic(auto)]

use account::score_input;
use std::io;

fn main(rt: HostRuntime) -> io::Result<()> {
    score_input(&rt)
}
