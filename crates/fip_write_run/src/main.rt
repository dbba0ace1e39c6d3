// Writes good plans and bad ones: a line for each, the length of what was written, or the status and whether the space was left
// as it was.
#![tactic(auto)]

mod cases;
mod plans;

use std::io;

fn main(rt: HostRuntime) -> io::Result<()> {
    cases::numbers(&rt)?;
    cases::tables(&rt)?;
    cases::places(&rt)?;
    cases::rooms(&rt)
}
