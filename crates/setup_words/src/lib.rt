// Lines of set-up in words: the number of the line, and what is asked.
#![tactic(auto)]

ghost use Rattle.std.specs.Prelude.{◌≡◌};
ghost use Rattle.setup_words.specs.SetUp.{opening, setup_line, site_asked, entry_asked, name_asked};

use asking::Known;
use phrases::{Piece, Sentence};
use words::names as w;

// The columns: who speaks, and what is asked.
const WHO: u64 = 7;

pub const ASKED: u64 = 22;

// The number of the line.
pub fn opening(n: u64) -> Sentence
    ensures { result ≡ opening n }
{
    Sentence::blank()
        .with(Piece::Line(n))
        .with(Piece::Column(WHO))
}

// A line of set-up.
fn setup_line(n: u64) -> Sentence
    ensures { result ≡ setup_line n }
{
    opening(n)
        .with(Piece::Word(w::SETUP))
        .with(Piece::Column(ASKED))
}

// 11: the window and the cores.
pub fn site(n: u64, base: u64, pages: u64, cores: u64) -> Sentence
    ensures { result ≡ site_asked n base pages cores }
{
    let s = setup_line(n).with(Piece::Word(w::WINDOW));
    let t = asking::count(s, pages, w::PAGE, w::PAGES);
    let u = t.with(Piece::Word(w::AT)).with(Piece::Hex(base));
    asking::count(u.with(Piece::Word(w::COMMA)), cores, w::ONE_CORE, w::CORES)
}

// 10: who answers which calls.
pub fn entry(n: u64, first: u64, last: u64, kind: u64, handler: u64) -> Sentence
    ensures { result ≡ entry_asked n first last kind handler }
{
    let s = asking::name(setup_line(n), Known::Kind, kind);
    let t = s.with(Piece::Word(w::CALLS)).with(Piece::Number(first));
    let u = t.with(Piece::Word(w::UP_TO)).with(Piece::Number(last));
    asking::name(u.with(Piece::Word(w::GO_TO)), Known::Handler, handler)
}

// 12: whose pages.
pub fn pages(n: u64, first: u64, count: u64, owner: u64) -> Sentence
    ensures { result ≡ name_asked n first count owner }
{
    let s = asking::count(setup_line(n), count, w::PAGE, w::PAGES);
    let t = s.with(Piece::Word(w::FROM_PAGE)).with(Piece::Number(first));
    asking::name(t.with(Piece::Word(w::OWNER)), Known::World, owner)
}
