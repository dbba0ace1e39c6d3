// The loop of a report: standard input is read to its end, and the report of it written to standard output.
#![tactic(auto)]

ghost use Rattle.std.specs.Prelude.{◌≡◌, true};
ghost use Rattle.tools.specs.Laid.{put};
ghost use Rattle.report_text.specs.Report.{report_text};
ghost use Rattle.reporting.specs.Reading.{Ran, Noted};

use frames::Machine;
use report_text::Output;
use tallies::Tally;

// Reads until the input ends: whether it did. The count only has the loop end: no input needs so many reads.
fn serve(
    rt: &impl Input,
    buf: &mut reporting::Input,
    tally: &mut Tally,
    machine: &mut Machine,
) -> bool
    ensures { result ≡ true → Ran (machine.old, tally.old) (machine.new, tally.new) }
{
    let mut kept: usize = 0;
    for _ in 0..u64::MAX {
        let n = channels::fill(rt, buf, kept);
        let waits = reporting::take_read(buf, kept, n, tally, machine);
        if n == kept {
            return true;
        }
        kept = waits;
    }
    false
}

// Notes the calls of standard input, and says whether it was read to its end.
pub fn count(rt: &impl Input, tally: &mut Tally) -> bool
    ensures { result ≡ true → Noted tally.old tally.new }
{
    let mut buf = io::large_buffer();
    let mut machine = Machine::fresh();
    serve(rt, &mut buf, tally, &mut machine)
}

// Lays the report of a table over the space for it, and writes it: whether it could be written.
pub fn tell(rt: &impl Print, out: &mut Output, tally: &Tally) -> bool
    ensures { out.new ≡ (put out.old 0 (report_text tally.now)).1 }
{
    let n = report_text::put_report(out, tally);
    channels::write(rt, out, n)
}
