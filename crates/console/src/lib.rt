// The loop of reads and writes: standard input to standard output, each line answered as soon as it has been read, or to no
// output at all, where only what the run leaves is asked for.
#![tactic(auto)]

mod quiet;

ghost use Rattle.std.specs.Prelude.{◌≡◌, true, IfSome};
ghost use Rattle.inputs.specs.Monitor.{Ran, Left};

use frames::Machine;
pub use quiet::{Remains, left};

// Writes so many answers, if it is loud: whether they could be written.
fn pass_on(rt: &impl Print, loud: bool, out: &[u8], n: usize) -> bool {
    !loud || channels::write(rt, out, n)
}

// Reads until the input ends, or a write fails: whether the input ended. The answers are laid in `out`, and written if it is
// loud. The count only has the loop end: no input needs so many reads.
fn serve(
    rt: &(impl Input + Print),
    loud: bool,
    buf: &mut waiting::Input,
    out: &mut waiting::Output,
    machine: &mut Machine,
) -> bool
    ensures { result ≡ true → Ran machine.old machine.new }
{
    let mut kept: usize = 0;
    for _ in 0..u64::MAX {
        let n = channels::fill(rt, buf, kept);
        let due = waiting::answer_read(buf, kept, n, out, machine);
        if !pass_on(rt, loud, out, due.put) {
            return false;
        }
        if n == kept {
            return true;
        }
        kept = due.kept;
    }
    false
}

// Reads standard input, from a machine as it is before the first frame, and answers on standard output if it is loud. The machine as
// it is at the end, where the input was read to its end, or to where it can be read no further, and answered.
pub fn run(rt: &(impl Input + Print), loud: bool) -> Option<Machine>
    ensures { IfSome result (λ machine. Left machine.setup machine.lists) }
{
    let mut buf = io::large_buffer();
    let mut out = [0u8; 327751];
    let mut machine = Machine::fresh();
    if serve(rt, loud, &mut buf, &mut out, &mut machine) {
        return Some(machine);
    }
    None
}
