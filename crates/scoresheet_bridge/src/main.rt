// The same program as scoresheet, kept with a long sheet of bridge under a roll, so that the gate runs it on that too.
#![tactic(auto)]

use account::score_input;
use std::io;

fn main(rt: HostRuntime) -> io::Result<()> {
    score_input(&rt)
}
