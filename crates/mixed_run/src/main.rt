#![tactic(auto)]

// The frame program on a stored run: a long run of everything at once.
fn main(rt: HostRuntime) {
    console::run(&rt, true);
}
