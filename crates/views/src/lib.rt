// Which lines of a run are shown: all of them, those about one page, or none.
#![tactic(auto)]

ghost use Rattle.std.specs.Prelude.{◌≡◌};
ghost use Rattle.mapping.specs.Lists.{held};
ghost use Rattle.views.specs.Views.{holds, mapped_in, mapped_by, about, shows, seen_line};

use cores::{Powers, Turns};
use frames::Machine;
use judgements::names;
use mapping::{Lead, Lists};
use origins::{Lines, Origins};
use outcomes::Came;
use pages::{Named, Owners, Window};
use parsing::Frame;
use rules::PAGE_SIZE;
use spans::Span;

// What somebody wants to see.
#[derive(Clone, Copy)]
pub enum View {
    All,
    // the history of the page that holds this address
    Page(u64),
    // the picture in the end, and no lines
    Map,
}

// What came of a line, and whether it is shown.
#[derive(Clone, Copy)]
pub struct Seen {
    pub came: Came,
    pub shown: bool,
}

// Whether a page of the window is one of these.
fn holds(s: Option<Span>, p: Option<u64>) -> bool
    ensures { result ≡ holds s p }
{
    let Some(Span { first, count }) = s else {
        return false;
    };
    let Some(page) = p else {
        return false;
    };
    if page < first {
        return false;
    }
    page - first < count
}

// The pages that a call maps or unmaps, by the caller's mappings before it.
fn mapped_in(w: Window, world: u64, x: &[u64; 8], lists: &Lists) -> Option<Span>
    ensures { result ≡ mapped_in w (held lists.now world) x.now }
{
    let q = judging::read_call(x);
    let a = q.args;
    if q.key == names::MAP_PAGES {
        return spans::span_of(w, a.x1, a.x3 / PAGE_SIZE);
    }
    if q.key == names::UNMAP_PAGES {
        let Some(Lead { phys, attr }) = mapping::lead_of(lists, world, a.x1) else {
            return None;
        };
        return spans::span_of(w, phys, a.x2 / PAGE_SIZE);
    }
    None
}

// The same of any frame.
fn mapped_by(w: Window, frame: Frame, x: &[u64; 8], turns: &Turns, lists: &Lists) -> Option<Span>
    ensures { result ≡ mapped_by w frame x.now turns.now lists.now }
{
    match frame {
        Frame::Site { base, pages, cores } => None,
        Frame::Entry {
            first,
            last,
            kind,
            handler,
        } => None,
        Frame::Name {
            first,
            count,
            owner,
        } => None,
        Frame::Call { core } => {
            let turn = cores::turn_of(turns, core);
            mapped_in(w, turn.world, x, lists)
        }
        Frame::Arrival { core } => None,
        Frame::Refused(why) => None,
    }
}

// Whether a line is about a page: it names its owner, asks for its transfer, or maps or unmaps it.
fn is_about(
    p: Option<u64>,
    address: u64,
    w: Window,
    frame: Frame,
    x: &[u64; 8],
    came: Came,
    mapped: Option<Span>,
) -> bool
    ensures { result ≡ about p address w frame x.now came mapped }
{
    let Came::Called(made) = came else {
        return holds(spans::named(w, frame, x, came), p);
    };
    let answer = made.answer;
    if spans::asks_for(p, address, x, answer) {
        return true;
    }
    if spans::is_done(answer) {
        return holds(mapped, p);
    }
    false
}

fn is_shown(
    view: View,
    w: Window,
    frame: Frame,
    x: &[u64; 8],
    came: Came,
    mapped: Option<Span>,
) -> bool
    ensures { result ≡ shows view w frame x.now came mapped }
{
    match view {
        View::All => true,
        View::Page(address) => is_about(w.page_of(address), address, w, frame, x, came, mapped),
        View::Map => false,
    }
}

// One line: what came of it, and whether it is shown.
pub fn take_line(
    view: View,
    frame: Frame,
    x: &[u64; 8],
    origins: &mut Origins,
    lines: &mut Lines,
    machine: &mut Machine,
) -> Seen
    ensures { ((machine.new, (origins.new, lines.new)), result) ≡ seen_line view (machine.old, (origins.old, lines.old)) (frame, x.now) }
{
    let w = setup::window_of(&machine.setup);
    let mapped = mapped_by(w, frame, x, &machine.turns, &machine.lists);
    let came = tracing::take_line(frame, x, origins, lines, machine);
    let shown = is_shown(view, w, frame, x, came, mapped);
    Seen { came, shown }
}
