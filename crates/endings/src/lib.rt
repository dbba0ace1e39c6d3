// The end of an explanation, part after part: as many of its lines as surely fit are put into a space, and the rest waits.
#![tactic(auto, using(crate::specs::Rest::laws))]

ghost use Rattle.std.specs.Prelude.{◌≡◌, ◌+◌};
ghost use Rattle.phrases.specs.Text.{told};
ghost use Rattle.endings.specs.Ending.{legend_said};
ghost use Rattle.endings.specs.Rest.{first_part, is_over, row_part, next_part, part_line, lines_from, filling};

use inventory::{Ending, Thing};
use phrases::{LONGEST, Piece, Sentence};
use setup::Setup;
use views::View;
use words::names;

// A part of the end: each has a line.
#[derive(Clone, Copy)]
pub enum Part {
    // a thing of how things stand
    Stands(Thing),
    // the page that holds this address
    Page(u64),
    // what the letters of the picture mean
    Legend,
    // the row of the picture that begins with this page
    Row(u64),
}

// How many bytes were put, and the part that comes next.
#[derive(Clone, Copy)]
pub struct Chunk {
    pub put: usize,
    pub next: Part,
}

// With which part a view's end begins.
pub fn first_part(view: View) -> Part
    ensures { result ≡ first_part view }
{
    match view {
        View::All => Part::Stands(Thing::Head),
        View::Page(address) => Part::Page(address),
        View::Map => Part::Legend,
    }
}

// Whether nothing is left.
pub fn is_over(part: Part) -> bool
    ensures { result ≡ is_over part }
{
    matches!(part, Part::Stands(Thing::End))
}

// The row from this page on, where the window has such a page.
fn row_part(setup: &Setup, page: u64) -> Part
    ensures { result ≡ row_part setup.now page }
{
    if page < setup::window_of(setup).pages {
        Part::Row(page)
    } else {
        Part::Stands(Thing::End)
    }
}

// The row behind the one from this page on.
fn after_row(setup: &Setup, page: u64) -> Part
    ensures { result ≡ row_part setup.now (page + 64) }
{
    let w = setup::window_of(setup);
    if w.pages.saturating_sub(page) <= picture::ROW {
        return Part::Stands(Thing::End);
    }
    Part::Row(page + picture::ROW)
}

// The part behind another.
fn next_part(part: Part, ending: &Ending) -> Part
    ensures { result ≡ next_part ending.now.setup.now ending.now.owners.now ending.now.origins.now ending.now.lists.now part }
{
    match part {
        Part::Stands(thing) => Part::Stands(ending.next(thing)),
        Part::Page(_) => Part::Stands(Thing::End),
        Part::Legend => row_part(ending.setup, 0),
        Part::Row(page) => after_row(ending.setup, page),
    }
}

// What the letters of the picture mean, or that there is no window.
fn legend_said(setup: &Setup) -> Sentence
    ensures { result ≡ legend_said setup.now }
{
    if setup::is_ready(setup) {
        standing::word_said(names::LEGEND).with(Piece::Word(names::CAPITALS))
    } else {
        standing::word_said(names::NO_WINDOW)
    }
}

// The line of a part, at a place: the place behind it.
fn put_part(out: &mut [u8], at: usize, part: Part, ending: &Ending) -> usize
    ensures { (result, out.new) ≡ told out.old at (part_line ending.now.lines.now ending.now.setup.now ending.now.owners.now ending.now.origins.now ending.now.powers.now ending.now.turns.now ending.now.lists.now part) }
{
    match part {
        Part::Stands(thing) => phrases::put_line(out, at, accounts::said(thing, ending)),
        Part::Page(address) => phrases::put_line(out, at, accounts::page_said(ending, address)),
        Part::Legend => phrases::put_line(out, at, legend_said(ending.setup)),
        Part::Row(page) => {
            let w = setup::window_of(ending.setup);
            picture::put_row(out, at, w, ending.owners, ending.lists, page)
        }
    }
}

// Puts the lines from a part on, as many as surely fit, one behind the other.
pub fn put_parts(out: &mut [u8], part: Part, ending: &Ending) -> Chunk
    ensures { (lines_from ending.now.lines.now ending.now.setup.now ending.now.owners.now ending.now.origins.now ending.now.powers.now ending.now.turns.now ending.now.lists.now result.next, (result.put, out.new)) ≡ filling (lines_from ending.now.lines.now ending.now.setup.now ending.now.owners.now ending.now.origins.now ending.now.powers.now ending.now.turns.now ending.now.lists.now part) 0 out.old }
{
    let mut next = part;
    let mut put: usize = 0;
    // No index is counted: a pass goes on by the length of its line, while the longest one has room.
    while LONGEST <= out.len() - put {
        if is_over(next) {
            return Chunk { put, next };
        }
        put = put_part(out, put, next, ending);
        next = next_part(next, ending);
    }
    Chunk { put, next }
}
