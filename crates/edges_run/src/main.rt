#![tactic(auto)]

// The frame program on a stored run: the cases of document 01 at the edges of its rules, and its easy errors.
fn main(rt: HostRuntime) {
    console::run(&rt, true);
}
