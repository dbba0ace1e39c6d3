// The end of an explanation, on standard output: how things stand, whose page was asked about, or the picture of the window.
#![tactic(auto)]

ghost use Rattle.std.specs.Prelude.{◌≡◌, true};
ghost use Rattle.endings.specs.Ending.{end_lines};
ghost use Rattle.standings.specs.Written.{Written};

use frames::Machine;
use inventory::Ending;
use origins::{Lines, Origins};
use views::View;

// Room for many lines, each the longest or less.
pub type Space = [u8; 65536];

// Writes the end of an explanation: whether all of it could be written.
pub fn tell(
    rt: &impl Print,
    view: View,
    out: &mut Space,
    origins: &Origins,
    lines: &Lines,
    machine: &Machine,
) -> bool
    ensures { result ≡ true → Written (end_lines lines.now machine.now.setup machine.now.owners origins.now machine.now.powers machine.now.turns machine.now.lists view) out.old out.new }
{
    let ending = Ending {
        lines,
        setup: &machine.setup,
        owners: &machine.owners,
        origins,
        powers: &machine.powers,
        turns: &machine.turns,
        lists: &machine.lists,
    };
    let mut part = endings::first_part(view);
    loop {
        let chunk = endings::put_parts(out, part, &ending);
        if !channels::write(rt, out, chunk.put) {
            return false;
        }
        part = chunk.next;
        if endings::is_over(part) {
            return true;
        }
    }
}
