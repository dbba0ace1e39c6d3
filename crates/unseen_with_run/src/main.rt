#![tactic(auto)]

// The frame program on a stored run: the lines of unseen_without, and among them calls of Realm on its own mappings.
fn main(rt: HostRuntime) {
    console::run(&rt, true);
}
