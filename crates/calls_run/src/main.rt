#![tactic(auto)]

// The frame program on a stored run: every answer of every call, from each world.
fn main(rt: HostRuntime) {
    console::run(&rt, true);
}
