#![tactic(auto)]

// Standard input: any number of frame runs, a line of `00` between them. Standard output: how many accepted calls each world made, by
// their answers.
fn main(rt: HostRuntime) {
    let mut tally = tallies::fresh();
    report_console::count(&rt, &mut tally);
    let mut out = [0u8; 12288];
    report_console::tell(&rt, &mut out, &tally);
}
