// The loop of an explanation: standard input to standard output, each line told in words as soon as it has been read.
#![tactic(auto)]

ghost use Rattle.std.specs.Prelude.{◌≡◌, true};
ghost use Rattle.explain_reads.specs.Reading.{Ran};

use frames::Machine;
use origins::{Lines, Origins};
use views::View;

// Reads until the input ends, or a write fails: whether the input ended. The count only has the loop end: no input needs so
// many reads.
fn serve(
    rt: &(impl Input + Print),
    view: View,
    buf: &mut explain_reads::Input,
    out: &mut explain_reads::Output,
    origins: &mut Origins,
    count: &mut Lines,
    machine: &mut Machine,
) -> bool
    ensures { result ≡ true → Ran (machine.old, (origins.old, count.old)) (machine.new, (origins.new, count.new)) }
{
    let mut kept: usize = 0;
    for _ in 0..u64::MAX {
        let n = channels::fill(rt, buf, kept);
        let due = explain_reads::take_read(view, buf, kept, n, out, origins, count, machine);
        if !channels::write(rt, out, due.put) {
            return false;
        }
        if n == kept {
            return true;
        }
        kept = due.kept;
    }
    false
}

// Tells the lines of standard input on standard output, and says whether it was read to its end: then the tables are as the
// input leaves them.
pub fn explain(
    rt: &(impl Input + Print),
    view: View,
    origins: &mut Origins,
    count: &mut Lines,
    machine: &mut Machine,
) -> bool
    ensures { result ≡ true → Ran (machine.old, (origins.old, count.old)) (machine.new, (origins.new, count.new)) }
{
    let mut buf = [0u8; 1024];
    let mut out = [0u8; 3146752];
    serve(rt, view, &mut buf, &mut out, origins, count, machine)
}
