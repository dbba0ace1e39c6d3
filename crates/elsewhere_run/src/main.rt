#![tactic(auto)]

// The frame program on a stored run: a ledger that sends pairs to other handlers than usual.
fn main(rt: HostRuntime) {
    console::run(&rt, true);
}
