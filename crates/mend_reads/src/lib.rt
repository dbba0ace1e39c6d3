// Mending over any bytes: each complete line of a read is taken, and what is unfinished waits for more.
#![tactic(auto)]

ghost use Rattle.std.specs.Prelude.{◌≡◌};
ghost use Rattle.inputs.specs.Feeding.{feeding};
ghost use Rattle.inputs.specs.Waiting.{front, heard, taken};
ghost use Rattle.sheets.specs.Sheet.{Sheet, on_sheet};
ghost use Rattle.mending.specs.Judged.{meaning, after_line};

use frames::Machine;
use lines::Next;
use sheets::{Dropped, Ends, Kept};

// The bytes that wait, and behind them those of a read.
pub type Input = [u8; 65536];

// Takes the complete lines of a chunk, and says how far they go.
pub fn feed(
    chunk: &[u8],
    kept: &mut Kept,
    dropped: &mut Dropped,
    ends: &mut Ends,
    machine: &mut Machine,
) -> usize
    ensures { on_sheet kept dropped ends (λ (s s' : Sheet). (result, (machine.new, s')) ≡ feeding after_line meaning (machine.old, s) 0 chunk.now) }
{
    let mut x = [0u64; 8];
    let mut at: usize = 0;
    while let Some(Next { frame, after }) = lines::next_line(chunk, at, &mut x) {
        let end = after - 1;
        mending::take_line(frame, &x, &chunk[at..end], kept, dropped, ends, machine);
        at = after;
    }
    at
}

// What a read calls for, where `waits` bytes waited before it and there are n after it: how many wait then.
pub fn take_read(
    buf: &mut Input,
    waits: usize,
    n: usize,
    kept: &mut Kept,
    dropped: &mut Dropped,
    ends: &mut Ends,
    machine: &mut Machine,
) -> usize
    ensures { on_sheet kept dropped ends (λ (s s' : Sheet). ((machine.new, s'), front result buf.new) ≡ taken after_line meaning (machine.old, s) (heard buf.old waits n)) }
{
    let end = lines::close(buf, waits, n);
    let bytes: &[u8] = buf;
    let used = feed(&bytes[0..end], kept, dropped, ends, machine);
    lines::to_front(buf, used, end)
}
