// What lies between a read and a write: the complete lines are answered, and an unfinished line waits at the front. Nothing here
// reads or writes.
#![tactic(auto)]

ghost use Rattle.std.specs.Prelude.{◌≡◌};
ghost use Rattle.inputs.specs.Waiting.{front, heard, served};

use frames::Machine;

// The bytes that wait, and behind them those of a read.
pub type Input = [u8; 65536];

// Room for the answers to so many bytes, five for each, and for the longest answer.
pub type Output = [u8; 327751];

// How many bytes are to be written, and how many wait.
#[derive(Clone, Copy)]
pub struct Due {
    pub put: usize,
    pub kept: usize,
}

// What a read calls for, where `kept` bytes waited before it and there are n after it.
pub fn answer_read(
    buf: &mut Input,
    kept: usize,
    n: usize,
    out: &mut Output,
    machine: &mut Machine,
) -> Due
    ensures { (machine.new, (front result.put out.new, front result.kept buf.new)) ≡ served machine.old (heard buf.old kept n) }
{
    let end = lines::close(buf, kept, n);
    let bytes: &[u8] = buf;
    let Machine {
        setup,
        named,
        ledger,
        owners,
        saved,
        powers,
        turns,
        lists,
    } = machine;
    let fed = stream::feed(
        &bytes[0..end],
        out,
        setup,
        named,
        ledger,
        owners,
        saved,
        powers,
        turns,
        lists,
    );
    let used = fed.used;
    let kept = lines::to_front(buf, used, end);
    Due { put: fed.put, kept }
}
