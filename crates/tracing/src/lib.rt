// A line of a run: the machine takes it, it is counted, and where it names the owners of pages its number is noted for each.
#![tactic(auto)]

ghost use Rattle.std.specs.Prelude.{◌≡◌};
ghost use Rattle.tracing.specs.Traced.{noted, traced_line};

use frames::Machine;
use origins::{Lines, Origins};
use outcomes::Came;
use parsing::Frame;
use spans::Span;

// Notes a line for the pages that it names owners for.
fn note(t: &mut Origins, line: u64, s: Option<Span>)
    ensures { t.new ≡ noted t.old line s }
{
    match s {
        Some(Span { first, count }) => origins::mark_run(t, first, count, line),
        None => {}
    }
}

// One line: what came of it.
pub fn take_line(
    frame: Frame,
    x: &[u64; 8],
    origins: &mut Origins,
    lines: &mut Lines,
    machine: &mut Machine,
) -> Came
    ensures { ((machine.new, (origins.new, lines.new)), result) ≡ traced_line (machine.old, (origins.old, lines.old)) (frame, x.now) }
{
    let w = setup::window_of(&machine.setup);
    let came = outcomes::take_frame(frame, x, machine);
    origins::count_line(lines);
    let number = origins::lines_in(lines);
    note(origins, number, spans::named(w, frame, x, came));
    came
}
