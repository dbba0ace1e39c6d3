#![tactic(auto)]

// The frame program on a stored run: mappings inside and around others of their world, and the overlaps that stay refused.
fn main(rt: HostRuntime) {
    console::run(&rt, true);
}
