#![tactic(auto)]

// The frame program on a stored run: Realm makes no call on its own mappings.
fn main(rt: HostRuntime) {
    console::run(&rt, true);
}
