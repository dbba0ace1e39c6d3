#![tactic(auto)]

// The frame program on a stored run: every status on both sides of its rule, in the largest machine.
fn main(rt: HostRuntime) {
    console::run(&rt, true);
}
