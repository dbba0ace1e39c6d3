#![tactic(auto)]

// The run of examples/claim, asked for the history of the page at 80030000.
fn main(rt: HostRuntime) {
    explanations::run(&rt);
}
