// Asks packages on both sides of each rule for an image: a line of the input is a case, and its status stands in a line of the output.
#![tactic(auto)]

mod packs;
mod rows;

use std::io;

// Room for all rows.
const INPUT: usize = 4096;

fn main(rt: HostRuntime) -> io::Result<()> {
    let mut input = [0u8; INPUT];
    let n = input_whole::read_full(&mut rt.reader(), &mut input)?;
    rows::play_all(&rt, &input[..n])
}
