#![tactic(auto)]

// Standard input: up to 512 lines of set-up. Standard output: the lines that the monitor accepts, then a notice for each that is dropped.
fn main(rt: HostRuntime) {
    let mut kept = [0u8; 17408];
    let mut dropped = [0u8; 4608];
    let mut ends = [0u64; 3];
    mend_console::mend(&rt, &mut kept, &mut dropped, &mut ends);
    mend_console::tell(&rt, &mut kept, &dropped, &ends);
}
