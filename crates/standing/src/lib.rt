// How things stand, a sentence for each core, range of pages and mapping.
#![tactic(auto, using(crate::specs::Standing::laws))]

ghost use Rattle.std.specs.Prelude.{◌≡◌};
ghost use Rattle.rules.specs.Choice.{pick};
ghost use Rattle.standing.specs.Standing.{address_of, is_wide, pages_word, attributes_word, origin_said, core_said, place_said, owner_said, range_said, maps_said, mapping_said, head_said, outside_said, word_said};

use cores::Power;
use pages::Window;
use phrases::{Piece, Sentence};
use ranges::Mapping;
use rules::{LAST_ATTRIBUTES, MOST_PAGES, PAGE_SIZE, WINDOW_LIMIT};
use words::names;

// What eight digits cannot hold, 2^32.
const EIGHT_DIGITS: u64 = 0x100000000;

// The address at which a page starts, or at which the window ends; 0 where no window has such a page.
pub fn address_of(w: Window, page: u64) -> u64
    ensures { result ≡ address_of w page }
{
    if page <= MOST_PAGES && w.base <= WINDOW_LIMIT {
        w.base + PAGE_SIZE * page
    } else {
        0
    }
}

// Whether a page of the window has addresses of more than eight digits.
pub fn is_wide(w: Window) -> bool
    ensures { result ≡ is_wide w }
{
    EIGHT_DIGITS < address_of(w, w.pages)
}

// A column of a line that has two addresses before it.
fn column(wide: bool, at: u64, behind: u64) -> u64
    ensures { result ≡ pick wide behind at }
{
    if wide { behind } else { at }
}

fn pages_word(n: u64) -> u64
    ensures { result ≡ pages_word n }
{
    if n == 1 { names::PAGE } else { names::PAGES }
}

fn attributes_word(attr: u64) -> u64
    ensures { result ≡ attributes_word attr }
{
    if attr <= LAST_ATTRIBUTES {
        names::READ_ONLY + attr
    } else {
        names::ATTRIBUTES
    }
}

// A word alone.
pub fn word_said(word: u64) -> Sentence
    ensures { result ≡ word_said word }
{
    Sentence::blank().with(Piece::Word(word))
}

// How many lines came.
pub fn head_said(lines: u64) -> Sentence
    ensures { result ≡ head_said lines }
{
    word_said(names::STANDS).with(Piece::Number(lines))
}

// An address that is in no page of the window.
pub fn outside_said(address: u64) -> Sentence
    ensures { result ≡ outside_said address }
{
    Sentence::blank()
        .with(Piece::Hex(address))
        .with(Piece::Word(names::OUTSIDE))
}

// A core: whether it is ON, and which world runs there, pending or OFF.
pub fn core_said(core: u64, power: Power, world: u64) -> Sentence
    ensures { result ≡ core_said core power world }
{
    let s = word_said(names::CORE)
        .with(Piece::Number(core))
        .with(Piece::Word(names::COLON));
    if power.is_on() {
        s.with(Piece::Word(names::ON_AND))
            .with(Piece::Word(world))
            .with(Piece::Word(names::RUNS))
    } else if power.is_pending() {
        s.with(Piece::Word(names::PENDING))
            .with(Piece::Hex(power.start))
    } else {
        s.with(Piece::Word(names::OFF_STILL))
    }
}

// The line that named an owner, or that none did.
fn with_origin(s: Sentence, line: u64) -> Sentence
    ensures { result ≡ origin_said s line }
{
    if line == 0 {
        s.with(Piece::Word(names::UNNAMED))
    } else {
        s.with(Piece::Word(names::LINE)).with(Piece::Number(line))
    }
}

// The first and the last address of the pages from one on and before another.
fn place_said(w: Window, first: u64, end: u64) -> Sentence
    ensures { result ≡ place_said w first end }
{
    Sentence::blank()
        .with(Piece::Hex(address_of(w, first)))
        .with(Piece::Word(names::UP_TO))
        .with(Piece::Hex(address_of(w, end).saturating_sub(1)))
}

// How many pages, and whose.
fn with_owner(s: Sentence, wide: bool, count: u64, owner: u64) -> Sentence
    ensures { result ≡ owner_said s wide count owner }
{
    s.with(Piece::Column(column(wide, 22, 38)))
        .with(Piece::Right(count))
        .with(Piece::Word(pages_word(count)))
        .with(Piece::Column(column(wide, 34, 50)))
        .with(Piece::Word(owner))
        .with(Piece::Column(column(wide, 42, 58)))
}

// The pages from one on and before another: where they lie, how many they are, whose, and by which line.
pub fn range_said(w: Window, first: u64, end: u64, owner: u64, line: u64) -> Sentence
    ensures { result ≡ range_said w first end owner line }
{
    let place = place_said(w, first, end);
    let whose = with_owner(place, is_wide(w), end.saturating_sub(first), owner);
    with_origin(whose, line)
}

// A world, and how many pages it maps.
fn maps_said(world: u64, count: u64) -> Sentence
    ensures { result ≡ maps_said world count }
{
    word_said(world)
        .with(Piece::Column(8))
        .with(Piece::Word(names::MAPS))
        .with(Piece::Number(count))
        .with(Piece::Word(pages_word(count)))
}

// A mapping of a world.
pub fn mapping_said(world: u64, m: Mapping) -> Sentence
    ensures { result ≡ mapping_said world m }
{
    maps_said(world, m.size / PAGE_SIZE)
        .with(Piece::Word(names::FROM))
        .with(Piece::Hex(m.phys))
        .with(Piece::Word(names::AT))
        .with(Piece::Hex(m.virt))
        .with(Piece::Word(names::COMMA))
        .with(Piece::Word(attributes_word(m.attr)))
}
