// A line of a report: accepted calls are noted, and a line of `00` makes all fresh but the counts.
#![tactic(auto)]

ghost use Rattle.std.specs.Prelude.{◌≡◌};
ghost use Rattle.judgements.specs.Judge.{called_by};
ghost use Rattle.counting.specs.Counted.{apart, counted_try, noted_all, after_frame, after_line};
ghost use Rattle.counting.specs.Laws.{whose_of};
ghost use Rattle.parsing.specs.declared.Frame.TheVariants.{Call};

use calls::Made;
use frames::Machine;
use identifiers::{Identifier, Parts};
use parsing::{Frame, Status};
use tallies::Tally;

// Whether a line stands between two runs.
pub fn is_apart(line: &[u8]) -> bool
    ensures { result ≡ apart line.now }
{
    if line.len() == 2 {
        if line[0] == b'0' {
            return line[1] == b'0';
        }
        return false;
    }
    false
}

// The core of a call.
fn core_of(frame: Frame) -> Option<u64>
    ensures { result ≡ whose_of frame }
{
    match frame {
        Frame::Site { base, pages, cores } => None,
        Frame::Entry {
            first,
            last,
            kind,
            handler,
        } => None,
        Frame::Name {
            first,
            count,
            owner,
        } => None,
        Frame::Call { core } => Some(core),
        Frame::Arrival { core } => None,
        Frame::Refused(why) => None,
    }
}

// The parts of the identifier that a call goes by.
fn parts_of(x: &[u64; 8]) -> Parts
    ensures { result ≡ called_by x.now }
{
    let id = Identifier::of(x[0]);
    id.split()
}

// Notes a call, where it was accepted.
fn note_try(t: &mut Tally, x: &[u64; 8], tried: Result<Made, Status>)
    ensures { t.new ≡ noted_all t.old (counted_try x.now tried) }
{
    let Ok(made) = tried else {
        return;
    };
    let caller = made.caller;
    let answer = made.answer;
    let parts = parts_of(x);
    let told = answers::told(parts, answer);
    tallies::note(t, caller, told);
}

// A call, noted where it is accepted.
fn take_call(core: u64, x: &[u64; 8], tally: &mut Tally, machine: &mut Machine)
    ensures { (machine.new, tally.new) ≡ after_frame (machine.old, tally.old) (Call core) x.now }
{
    let Machine {
        setup,
        named: _,
        ledger,
        owners,
        saved,
        powers,
        turns,
        lists,
    } = machine;
    let tried = calling::try_call(setup, core, x, ledger, owners, saved, powers, turns, lists);
    note_try(tally, x, tried);
}

// One frame.
fn take_frame(frame: Frame, x: &[u64; 8], tally: &mut Tally, machine: &mut Machine)
    ensures { (machine.new, tally.new) ≡ after_frame (machine.old, tally.old) frame x.now }
{
    let w = core_of(frame);
    let Some(core) = w else {
        machine.step(frame, x);
        return;
    };
    take_call(core, x, tally, machine);
}

// One line: between two runs all is made fresh but the counts.
pub fn take_line(
    between: bool,
    frame: Frame,
    x: &[u64; 8],
    tally: &mut Tally,
    machine: &mut Machine,
)
    ensures { (machine.new, tally.new) ≡ after_line (machine.old, tally.old) (between, (frame, x.now)) }
{
    if between {
        *machine = Machine::fresh();
        return;
    }
    take_frame(frame, x, tally, machine);
}
