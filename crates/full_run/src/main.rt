#![tactic(auto)]

// The frame program on a stored run: a full ledger.
fn main(rt: HostRuntime) {
    console::run(&rt, true);
}
