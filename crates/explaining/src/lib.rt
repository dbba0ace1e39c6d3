// One line of a run: it is taken, and told in words behind those of the lines before it.
#![tactic(auto)]

ghost use Rattle.std.specs.Prelude.{◌≡◌};
ghost use Rattle.origins.specs.Lines.{lines_in};
ghost use Rattle.running.specs.Running.{runs_after};
ghost use Rattle.phrases.specs.Text.{line_text, told};
ghost use Rattle.telling.specs.Telling.{sentence_of};
ghost use Rattle.explaining.specs.Explained.{after_told};

use frames::Machine;
use origins::{Lines, Origins};
use outcomes::Came;
use parsing::Frame;
use views::View;

// The words of a line, where its number stands last in the count.
fn tell_line(
    frame: Frame,
    x: &[u64; 8],
    came: Came,
    out: &mut [u8],
    at: usize,
    lines: &Lines,
    machine: &Machine,
) -> usize
    ensures { (result, out.new) ≡ told out.old at (line_text (sentence_of (lines_in lines.now) frame x.now came (runs_after frame machine.now.powers machine.now.turns))) }
{
    let number = origins::lines_in(lines);
    let runs = running::runs_after(frame, &machine.powers, &machine.turns);
    let s = telling::tell(number, frame, x, came, runs);
    phrases::put_line(out, at, s)
}

// One line, with its words put at a place if it is shown: the place behind them. Where there is no room for the longest line
// none are put.
pub fn take_line(
    view: View,
    frame: Frame,
    x: &[u64; 8],
    out: &mut [u8],
    at: usize,
    origins: &mut Origins,
    lines: &mut Lines,
    machine: &mut Machine,
) -> usize
    ensures { ((machine.new, (origins.new, lines.new)), (result, out.new)) ≡ after_told view ((machine.old, (origins.old, lines.old)), (at, out.old)) (frame, x.now) }
{
    let seen = views::take_line(view, frame, x, origins, lines, machine);
    if seen.shown {
        let came = seen.came;
        return tell_line(frame, x, came, out, at, lines, machine);
    }
    at
}
