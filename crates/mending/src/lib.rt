// A line of a set-up file: kept where the machine of the kept lines before it accepts it, and dropped where it does not.
#![tactic(auto)]

ghost use Rattle.std.specs.Prelude.{◌≡◌};
ghost use Rattle.sheets.specs.Sheet.{Sheet, on_sheet};
ghost use Rattle.mending.specs.Judged.{later, status_of, judged, after_line};

use frames::Machine;
use parsing::Frame;
use sheets::{Dropped, Ends, Kept};
use showing::Reply;

// The status of a frame that comes at the wrong time.
const MISPLACED: u64 = 0x73;

// Whether a frame is one that set-up has no use for: a call or an arrival.
fn is_later(frame: Frame) -> bool
    ensures { result ≡ later frame }
{
    match frame {
        Frame::Site { base, pages, cores } => false,
        Frame::Entry {
            first,
            last,
            kind,
            handler,
        } => false,
        Frame::Name {
            first,
            count,
            owner,
        } => false,
        Frame::Call { core } => true,
        Frame::Arrival { core } => true,
        Frame::Refused(why) => false,
    }
}

// How a frame is answered, as a status.
fn status_of(reply: Reply) -> u64
    ensures { result ≡ status_of reply }
{
    match reply {
        Reply::Told(why) => parsing::byte_of(why),
        Reply::Called { .. } => 0,
    }
}

// The verdict on a frame, by the frame step itself; a call or an arrival does nothing.
fn judge(frame: Frame, x: &[u64; 8], machine: &mut Machine) -> u64
    ensures { (machine.new, result) ≡ judged machine.old frame x.now }
{
    if is_later(frame) {
        return MISPLACED;
    }
    let reply = machine.step(frame, x);
    status_of(reply)
}

// One line, its frame and its bytes: past the last that is mended it is only counted.
pub fn take_line(
    frame: Frame,
    x: &[u64; 8],
    line: &[u8],
    kept: &mut Kept,
    dropped: &mut Dropped,
    ends: &mut Ends,
    machine: &mut Machine,
)
    ensures { on_sheet kept dropped ends (λ (s s' : Sheet). (machine.new, s') ≡ after_line (machine.old, s) ((frame, x.now), line.now)) }
{
    let counts = sheets::count_line(ends);
    if counts {
        let status = judge(frame, x, machine);
        sheets::note(status, line, kept, dropped, ends);
    }
}
