#![tactic(auto)]

// The run of examples/claim, asked for the picture of its window.
fn main(rt: HostRuntime) {
    explanations::run(&rt);
}
