// The same program as scoresheet, kept with the sheet of a hall that is not there, so that the gate runs it on that too.
#![tactic(auto)]

use account::score_input;
use std::io;

fn main(rt: HostRuntime) -> io::Result<()> {
    score_input(&rt)
}
