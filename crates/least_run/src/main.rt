#![tactic(auto)]

// The frame program on a stored run: the smallest machine.
fn main(rt: HostRuntime) {
    console::run(&rt, true);
}
