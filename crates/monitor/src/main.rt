#![tactic(auto)]

// The frame program: standard input to standard output. Run here on document 01's example.
fn main(rt: HostRuntime) {
    console::run(&rt, true);
}
