// The run of a report over any bytes: each complete line of a read is taken, and what is unfinished waits for more.
#![tactic(auto)]

ghost use Rattle.std.specs.Prelude.{◌≡◌};
ghost use Rattle.inputs.specs.Feeding.{feeding};
ghost use Rattle.inputs.specs.Waiting.{front, heard, taken};
ghost use Rattle.counting.specs.Counted.{meaning, after_line};

use frames::Machine;
use lines::Next;
use tallies::Tally;

// The bytes that wait, and behind them those of a read.
pub type Input = [u8; 65536];

// Takes the complete lines of a chunk, and says how far they go.
pub fn feed(chunk: &[u8], tally: &mut Tally, machine: &mut Machine) -> usize
    ensures { (result, (machine.new, tally.new)) ≡ feeding after_line meaning (machine.old, tally.old) 0 chunk.now }
{
    let mut x = [0u64; 8];
    let mut at: usize = 0;
    while let Some(Next { frame, after }) = lines::next_line(chunk, at, &mut x) {
        let end = after - 1;
        let between = counting::is_apart(&chunk[at..end]);
        counting::take_line(between, frame, &x, tally, machine);
        at = after;
    }
    at
}

// What a read calls for, where `kept` bytes waited before it and there are n after it: how many wait then.
pub fn take_read(
    buf: &mut Input,
    kept: usize,
    n: usize,
    tally: &mut Tally,
    machine: &mut Machine,
) -> usize
    ensures { ((machine.new, tally.new), front result buf.new) ≡ taken after_line meaning (machine.old, tally.old) (heard buf.old kept n) }
{
    let end = lines::close(buf, kept, n);
    let bytes: &[u8] = buf;
    let used = feed(&bytes[0..end], tally, machine);
    lines::to_front(buf, used, end)
}
