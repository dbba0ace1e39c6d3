// What there is to tell in the end, one thing after the other.
#![tactic(auto, using(crate::specs::Inventory::laws))]

ghost use Rattle.std.specs.Prelude.{◌≡◌, ◌+◌};
ghost use Rattle.inventory.specs.Inventory.{unlike, range_end, is_held, held_from, held_thing, range_thing, core_thing, after_head, next, is_end};

use cores::{Powers, Turns};
use mapping::Lists;
use origins::{Lines, Origins};
use pages::Owners;
use rules::{MOST_MAPPINGS, WORLDS};
use setup::Setup;

// How many places for mappings there are.
const PLACES: u64 = WORLDS * MOST_MAPPINGS;

// What there is to tell of, as it is in the end.
#[derive(Clone, Copy)]
pub struct Ending<'a> {
    pub lines: &'a Lines,
    pub setup: &'a Setup,
    pub owners: &'a Owners,
    pub origins: &'a Origins,
    pub powers: &'a Powers,
    pub turns: &'a Turns,
    pub lists: &'a Lists,
}

// A thing to tell.
#[derive(Clone, Copy)]
pub enum Thing {
    // how many lines came
    Head,
    NoWindow,
    Core(u64),
    // the pages from one on and before another, which have one owner, named by one line
    Range { first: u64, end: u64 },
    // a mapping, by its place among those of all worlds
    Held(u64),
    NoMappings,
    End,
}

// Whether a page has another owner, or was named by another line.
fn is_unlike(owners: &Owners, origins: &Origins, owner: u64, line: u64, page: u64) -> bool
    ensures { result ≡ unlike owners.now origins.now owner line page }
{
    pages::owner_of(owners, page) != owner || origins::line_of(origins, page) != line
}

// The first page from this one on that has another owner, or was named by another line; the window's end where there is none.
fn range_end(owners: &Owners, origins: &Origins, pages: u64, first: u64) -> u64
    ensures { result ≡ range_end owners.now origins.now pages first }
{
    let owner = pages::owner_of(owners, first);
    let line = origins::line_of(origins, first);
    (first..pages)
        .find(|page| is_unlike(owners, origins, owner, line, *page))
        .unwrap_or(first.max(pages))
}

fn is_held(lists: &Lists, i: u64) -> bool
    ensures { result ≡ is_held lists.now i }
{
    let m = places::place_of(lists, i / MOST_MAPPINGS, i % MOST_MAPPINGS);
    m.size != 0
}

// The first place from this one on that holds a mapping; the one past the last where there is none.
fn held_from(lists: &Lists, i: u64) -> u64
    ensures { result ≡ held_from lists.now i }
{
    (i..PLACES)
        .find(|at| is_held(lists, *at))
        .unwrap_or(i.max(PLACES))
}

fn held_thing(lists: &Lists, i: u64) -> Thing
    ensures { result ≡ held_thing lists.now i }
{
    let at = held_from(lists, i);
    if at < PLACES {
        Thing::Held(at)
    } else if i == 0 {
        Thing::NoMappings
    } else {
        Thing::End
    }
}

fn after_held(lists: &Lists, i: u64) -> Thing
    ensures { result ≡ held_thing lists.now (i + 1) }
{
    if i < PLACES {
        held_thing(lists, i + 1)
    } else {
        Thing::End
    }
}

impl Ending<'_> {
    // The range from this page on; behind the last, the mappings.
    fn range_thing(&self, first: u64) -> Thing
        ensures { result ≡ range_thing self.now.setup.now self.now.owners.now self.now.origins.now self.now.lists.now first }
    {
        let w = setup::window_of(self.setup);
        if first < w.pages {
            Thing::Range {
                first,
                end: range_end(self.owners, self.origins, w.pages, first),
            }
        } else {
            held_thing(self.lists, 0)
        }
    }

    // This core; behind the last, the ranges.
    fn core_thing(&self, core: u64) -> Thing
        ensures { result ≡ core_thing self.now.setup.now self.now.owners.now self.now.origins.now self.now.lists.now core }
    {
        if core < setup::cores_of(self.setup) {
            Thing::Core(core)
        } else {
            self.range_thing(0)
        }
    }

    fn after_head(&self) -> Thing
        ensures { result ≡ after_head self.now.setup.now self.now.owners.now self.now.origins.now self.now.lists.now }
    {
        if setup::is_ready(self.setup) {
            self.core_thing(0)
        } else {
            Thing::NoWindow
        }
    }

    fn after_core(&self, core: u64) -> Thing
        ensures { result ≡ core_thing self.now.setup.now self.now.owners.now self.now.origins.now self.now.lists.now (core + 1) }
    {
        if core < setup::cores_of(self.setup) {
            self.core_thing(core + 1)
        } else {
            self.range_thing(0)
        }
    }

    // The thing after another.
    pub fn next(&self, thing: Thing) -> Thing
        ensures { result ≡ next self.now.setup.now self.now.owners.now self.now.origins.now self.now.lists.now thing }
    {
        match thing {
            Thing::Head => self.after_head(),
            Thing::Core(core) => self.after_core(core),
            Thing::Range { end, .. } => self.range_thing(end),
            Thing::Held(i) => after_held(self.lists, i),
            Thing::NoWindow | Thing::NoMappings | Thing::End => Thing::End,
        }
    }
}

// Whether nothing is left to tell.
pub fn is_end(thing: Thing) -> bool
    ensures { result ≡ is_end thing }
{
    matches!(thing, Thing::End)
}
