// The loop of mending: standard input is read to its end, and what it comes to is written to standard output.
#![tactic(auto)]

ghost use Rattle.std.specs.Prelude.{◌≡◌, true};
ghost use Rattle.sheets.specs.Sheet.{Sheet, on_sheet, finished};
ghost use Rattle.mend_reads.specs.Reading.{Ran, Mends};

use frames::Machine;
use sheets::{Dropped, Ends, Kept};

// Reads until the input ends: whether it did. The count only has the loop end: no input needs so many reads.
fn serve(
    rt: &impl Input,
    buf: &mut mend_reads::Input,
    kept: &mut Kept,
    dropped: &mut Dropped,
    ends: &mut Ends,
    machine: &mut Machine,
) -> bool
    ensures { result ≡ true → on_sheet kept dropped ends (λ (s s' : Sheet). Ran (machine.old, s) (machine.new, s')) }
{
    let mut waits: usize = 0;
    for _ in 0..u64::MAX {
        let n = channels::fill(rt, buf, waits);
        let more = mend_reads::take_read(buf, waits, n, kept, dropped, ends, machine);
        if n == waits {
            return true;
        }
        waits = more;
    }
    false
}

// Sets down the lines of standard input, and says whether it was read to its end, or to where it can be read no further.
pub fn mend(rt: &impl Input, kept: &mut Kept, dropped: &mut Dropped, ends: &mut Ends) -> bool
    ensures { result ≡ true → on_sheet kept dropped ends (λ (s s' : Sheet). Mends s s') }
{
    let mut buf = io::large_buffer();
    let mut machine = Machine::fresh();
    serve(rt, &mut buf, kept, dropped, ends, &mut machine)
}

// Finishes the text of a sheet, and writes it: whether it could be written.
pub fn tell(rt: &impl Print, kept: &mut Kept, dropped: &Dropped, ends: &Ends) -> bool
    ensures { kept.new ≡ (finished kept.old dropped.now ends.now).1 }
{
    let n = sheets::finish(kept, dropped, ends);
    channels::write(rt, kept, n)
}
