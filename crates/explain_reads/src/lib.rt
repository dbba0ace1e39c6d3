// The run over any bytes: each complete line of a read is told in words, and what is unfinished waits for more.
#![tactic(auto)]

ghost use Rattle.std.specs.Prelude.{◌≡◌};
ghost use Rattle.lines.specs.Input.{reading};
ghost use Rattle.inputs.specs.Feeding.{feeding};
ghost use Rattle.inputs.specs.Waiting.{front, heard};
ghost use Rattle.explaining.specs.Explained.{after_told};
ghost use Rattle.explain_reads.specs.Reading.{spoken};

use frames::Machine;
use lines::Next;
use origins::{Lines, Origins};
use stream::Fed;
use views::View;
use waiting::Due;

// The bytes that wait, and behind them those of a read.
pub type Input = [u8; 1024];

// Room for the words of so many lines, each the longest.
pub type Output = [u8; 3146752];

// Tells the complete lines of a chunk.
pub fn feed(
    view: View,
    chunk: &[u8],
    out: &mut [u8],
    origins: &mut Origins,
    count: &mut Lines,
    machine: &mut Machine,
) -> Fed
    ensures { (result.used, ((machine.new, (origins.new, count.new)), (result.put, out.new))) ≡ feeding (after_told view) reading ((machine.old, (origins.old, count.old)), (0, out.old)) 0 chunk.now }
{
    let mut x = [0u64; 8];
    let mut at: usize = 0;
    let mut put: usize = 0;
    while let Some(Next { frame, after }) = lines::next_line(chunk, at, &mut x) {
        put = explaining::take_line(view, frame, &x, out, put, origins, count, machine);
        at = after;
    }
    Fed { used: at, put }
}

// What a read calls for, where `kept` bytes waited before it and there are n after it.
pub fn take_read(
    view: View,
    buf: &mut Input,
    kept: usize,
    n: usize,
    out: &mut Output,
    origins: &mut Origins,
    count: &mut Lines,
    machine: &mut Machine,
) -> Due
    ensures { ((machine.new, (origins.new, count.new)), (front result.put out.new, front result.kept buf.new)) ≡ spoken view (machine.old, (origins.old, count.old)) (heard buf.old kept n) }
{
    let end = lines::close(buf, kept, n);
    let bytes: &[u8] = buf;
    let fed = feed(view, &bytes[0..end], out, origins, count, machine);
    let used = fed.used;
    let kept = lines::to_front(buf, used, end);
    Due { put: fed.put, kept }
}
