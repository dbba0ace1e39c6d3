// Each world's sixteen places, free or held, in one table that the caller lends. Where there is no such world or place, reading
// gives a free one and writing changes nothing. No search looks past the last place that is held.
#![tactic(auto)]

ghost use Rattle.std.specs.Prelude.{◌≡◌, ◌≤◌, ◌<◌};
ghost use Rattle.ranges.specs.declared.Question.TheVariants.{Free, OnPages, OnRange, Touches};
ghost use Rattle.places.specs.Table.{blank, unmapped, reach, raw, written, resized, behind, grown, used, place, stored, freed};
ghost use Rattle.places.specs.Found.{found, latest, spot, clashed};
ghost use Rattle.places.specs.Seek.{Lowest, ToLast};
ghost use Rattle.places.specs.Decider.{decider};

use ranges::{Mapping, Question};
use rules::{MOST_MAPPINGS, WORLDS};

// Where the reach of each world stands: behind the places.
const REACHES: u64 = WORLDS * MOST_MAPPINGS * 4;

// Virtual start, physical start, size and attributes of each place, and then the reach of each world: from that place on none is
// held. A place of size 0 is free.
pub type Lists = [u64; REACHES as usize + WORLDS as usize];

// What stands at a free place.
pub fn blank() -> Mapping
    ensures { result ≡ blank }
{
    Mapping {
        virt: 0,
        phys: 0,
        size: 0,
        attr: 0,
    }
}

// No world holds a mapping.
#[tactic(auto, using(crate::specs::Table::layout_laws))]
pub fn fresh() -> Lists
    ensures { result ≡ unmapped }
{
    [0; REACHES as usize + WORLDS as usize]
}

// From which place on nothing of the world is held: sixteen at most, 0 where there is no such world.
#[tactic(auto, using(crate::specs::Table::reach_laws))]
fn reach_of(lists: &Lists, world: u64) -> u64
    ensures { result ≡ reach lists.now world }
{
    if WORLDS <= world {
        return 0;
    }
    lists[(REACHES + world) as usize].min(MOST_MAPPINGS)
}

// The numbers of a place as they stand. That there are such a world and place is known where a reach is, so that a struct which holds
// it would be made at each call and be no plainer.
#[tactic(auto, using(crate::specs::Table::layout_laws))]
fn raw_at(lists: &Lists, world: u64, i: u64) -> Mapping
    requires fact_1 { world < 4 }
    requires fact_2 { i < 16 }
    ensures { result ≡ raw lists.now world i }
{
    let at = ((world * MOST_MAPPINGS + i) * 4) as usize;
    Mapping {
        virt: lists[at],
        phys: lists[at + 1],
        size: lists[at + 2],
        attr: lists[at + 3],
    }
}

// Other numbers in their stead.
#[tactic(auto, using(crate::specs::Table::layout_laws))]
fn write_at(lists: &mut Lists, world: u64, i: u64, m: Mapping)
    requires fact_1 { world < 4 }
    requires fact_2 { i < 16 }
    ensures { lists.new ≡ written lists.old world i m }
{
    let at = ((world * MOST_MAPPINGS + i) * 4) as usize;
    lists[at] = m.virt;
    lists[at + 1] = m.phys;
    lists[at + 2] = m.size;
    lists[at + 3] = m.attr;
}

// Another reach of the world.
#[tactic(auto, using(crate::specs::Table::layout_laws))]
fn resize(lists: &mut Lists, world: u64, n: u64)
    requires { world < 4 }
    ensures { lists.new ≡ resized lists.old world n }
{
    lists[(REACHES + world) as usize] = n;
}

// How many of the first n places there are without the free ones at their end.
fn last_held(lists: &Lists, world: u64, n: u64) -> u64
    requires fact_1 { world < 4 }
    requires fact_2 { n ≤ 16 }
    ensures { result ≡ behind (raw lists.now world) n }
{
    count_to_last(lists, world, n, |m| m.size != 0)
}

// The mapping at a place of the world, blank where nothing is held.
#[tactic(auto, using(crate::specs::Table::place_laws))]
pub fn place_of(lists: &Lists, world: u64, i: u64) -> Mapping
    ensures { result ≡ place lists.now world i }
{
    if reach_of(lists, world) <= i {
        return blank();
    }
    let m = raw_at(lists, world, i);
    if m.size == 0 {
        return blank();
    }
    m
}

// The reach with a place held too that is within it or the next.
#[tactic(auto, using(crate::specs::Table::growths))]
fn grown(n: u64, i: u64) -> u64
    requires { i < 16 }
    ensures { result ≡ grown n i }
{
    if i == n {
        return i + 1;
    }
    n
}

// Puts the mapping at a place of the world that is within its reach, or the next.
#[tactic(auto, using(crate::specs::Table::store_laws))]
pub fn store(lists: &mut Lists, world: u64, i: u64, m: Mapping)
    ensures { lists.new ≡ stored lists.old world i m }
{
    if WORLDS <= world {
        return;
    }
    if MOST_MAPPINGS <= i {
        return;
    }
    let end = reach_of(lists, world);
    if end < i {
        return;
    }
    write_at(lists, world, i, m);
    resize(lists, world, grown(end, i));
}

// Makes a place of the world free. Its reach then ends behind the last place that is held.
#[tactic(auto, using(crate::specs::Table::reach_bounds, crate::specs::Table::store_laws))]
pub fn free(lists: &mut Lists, world: u64, i: u64)
    ensures { lists.new ≡ freed lists.old world i }
{
    let end = reach_of(lists, world);
    if end <= i {
        return;
    }
    write_at(lists, world, i, blank());
    let left = last_held(lists, world, end);
    resize(lists, world, left);
}

// The searches. For none they answer 16, one past the last place, as `found` does. The test is a type parameter, so that each is
// compiled to a loop of its own, in which its test is known: a loop that is handed a question asks at each place which one it is.

// The lowest place within the reach whose mapping passes.
fn lowest<F: Fn(Mapping) -> bool>(lists: &Lists, world: u64, passes: F) -> Option<u64>
    requires { F.IsAlwaysCallable passes }
    ensures { Lowest (λ i. F.post passes (raw lists.now world i)) (reach lists.now world) result }
{
    for i in 0..reach_of(lists, world) {
        if passes(raw_at(lists, world, i)) {
            return Some(i);
        }
    }
    None
}

// How many of the first n places there are up to the last whose mapping passes: 0 where none does.
fn count_to_last<F: Fn(Mapping) -> bool>(lists: &Lists, world: u64, n: u64, passes: F) -> u64
    requires fact_1 { 0 < n → world < 4 }
    requires fact_2 { n ≤ 16 }
    requires fact_3 { F.IsAlwaysCallable passes }
    ensures { ToLast (λ i. F.post passes (raw lists.now world i)) n result }
{
    for i in (0..n).rev() {
        if passes(raw_at(lists, world, i)) {
            return i + 1;
        }
    }
    0
}

// The lowest place that is free.
fn lowest_free(lists: &Lists, world: u64) -> u64
    ensures { result ≡ found lists.now world Free }
{
    lowest(lists, world, |m| m.answers(Question::Free)).unwrap_or(reach_of(lists, world))
}

// How far the world's mappings go: behind the last that is held.
#[tactic(auto, using(crate::specs::Table::reach_bounds, crate::specs::Table::uses))]
fn used_of(lists: &Lists, world: u64) -> u64
    ensures { result ≡ used lists.now world }
{
    let end = reach_of(lists, world);
    if end == 0 {
        return 0;
    }
    last_held(lists, world, end)
}

// Where a new mapping goes: behind the last that is held, or to the lowest free place where that is the last; 16 where none is free.
#[tactic(auto, using(crate::specs::Found::spots))]
pub fn find_free(lists: &Lists, world: u64) -> u64
    ensures { result ≡ spot lists.now world }
{
    let n = used_of(lists, world);
    if n < MOST_MAPPINGS {
        return n;
    }
    lowest_free(lists, world)
}

// How many places there are up to the last that is held with exactly this start and size: 0 where none is. What was made last is
// looked at first.
pub fn latest_exact(lists: &Lists, world: u64, virt: u64, size: u64) -> u64
    ensures { result ≡ latest lists.now world virt size }
{
    if size == 0 {
        return 0;
    }
    count_to_last(lists, world, reach_of(lists, world), |m| {
        m.is_exact(virt, size)
    })
}

// The lowest place that is held, with a physical range that meets this one.
pub fn find_range(lists: &Lists, world: u64, start: u64, size: u64) -> u64
    ensures { result ≡ found lists.now world (OnRange start size) }
{
    lowest(
        lists,
        world,
        |m| m.answers(Question::OnRange { start, size }),
    )
    .unwrap_or(MOST_MAPPINGS)
}

// The lowest place that is held, with a physical range that meets this run of pages.
pub fn find_on_pages(lists: &Lists, world: u64, start: u64, count: u64) -> u64
    ensures { result ≡ found lists.now world (OnPages start count) }
{
    lowest(
        lists,
        world,
        |m| m.answers(Question::OnPages { start, count }),
    )
    .unwrap_or(MOST_MAPPINGS)
}

// The lowest place that is held, with a virtual range that meets this one.
pub fn find_touching(lists: &Lists, world: u64, start: u64, size: u64) -> u64
    ensures { result ≡ found lists.now world (Touches start size) }
{
    lowest(
        lists,
        world,
        |m| m.answers(Question::Touches { start, size }),
    )
    .unwrap_or(MOST_MAPPINGS)
}

// Whether a place is held that this mapping may not stand beside.
pub fn any_clash(lists: &Lists, world: u64, m: Mapping) -> bool
    ensures { result ≡ clashed lists.now world m }
{
    lowest(lists, world, |held| held.is_clashing(m)).is_some()
}

// The smallest mapping of the world that holds the virtual address, that of the lowest place of two of one size; blank where none
// holds it. The places are seen from the last to the first, as the definition goes through them.
#[tactic(auto, using(crate::specs::Decider::seen_none, crate::specs::Decider::seen_all))]
pub fn decider(lists: &Lists, world: u64, address: u64) -> Mapping
    ensures { result ≡ decider lists.now world address }
{
    let end = reach_of(lists, world);
    let mut best = blank();
    for i in (0..end).rev() {
        best = raw_at(lists, world, i).preferred(best, address);
    }
    best
}
