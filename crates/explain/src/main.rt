#![tactic(auto)]

// Standard input: a run of frames. Standard output: each of its lines told in words, and how things stand in the end; with an
// address, the history of its page, and with `map` the window as a picture.
fn main(rt: HostRuntime) {
    explanations::run(&rt);
}
