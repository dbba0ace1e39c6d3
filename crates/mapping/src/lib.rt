// The mappings of each world. A judgement sees the held ones as a list, in the order of their places.
#![tactic(auto)]

ghost use Rattle.std.specs.Prelude.{◌≡◌};
ghost use Rattle.mapping.specs.Mapping.{has_exactly, meets_run, touched, deciding, decided_by, lead_of, owns_pages, map_verdict};
ghost use Rattle.mapping.specs.Lists.{held, holding, released};

use pages::{Owners, Window};
pub use places::{Lists, fresh};
pub use ranges::Mapping;
use rules::{MOST_MAPPINGS, PAGE_SIZE, Reason};

// The bytes of fewer pages than this can be counted in 64 bits.
const COUNTABLE: u64 = 0x10000000000000;

// What a mapping that is granted comes to: it is held, or nothing is done, as its size is 0.
#[derive(Clone, Copy)]
pub enum Grant {
    Hold,
    Nothing,
}

// Where an address leads, by the mapping that decides it.
#[derive(Clone, Copy)]
pub struct Lead {
    pub phys: u64,
    pub attr: u64,
}

// Whether the world owns each of its pages.
fn is_owned(owners: &Owners, w: Window, world: u64, m: Mapping) -> bool
    ensures { result ≡ owns_pages owners.now w world m }
{
    let count = m.size / PAGE_SIZE;
    let Some(first) = w.run_of(m.phys, count) else {
        return false;
    };
    pages::all_owned(owners, first, count, world)
}

// Judges a new mapping of the world: the first test that fails decides.
pub fn judge_map(
    lists: &Lists,
    owners: &Owners,
    w: Window,
    world: u64,
    m: Mapping,
) -> Result<Grant, Reason>
    ensures { result ≡ map_verdict (held lists.now world) owners.now w world m }
{
    if m.size == 0 {
        return Ok(Grant::Nothing);
    }
    if m.is_malformed() {
        return Err(Reason::Malformed);
    }
    if m.is_beyond(w) {
        return Err(Reason::Beyond);
    }
    if MOST_MAPPINGS <= places::find_free(lists, world) {
        return Err(Reason::Full);
    }
    if places::any_clash(lists, world, m) {
        return Err(Reason::Overlap);
    }
    if is_owned(owners, w, world, m) {
        return Ok(Grant::Hold);
    }
    Err(Reason::NotOwned)
}

// Holds the mapping behind the world's last, or at its lowest free place. Where none is free, nothing changes.
#[tactic(auto, using(crate::proofs::Lists::list_laws))]
pub fn hold(lists: &mut Lists, world: u64, m: Mapping)
    ensures { lists.new ≡ holding lists.old world m }
{
    let i = places::find_free(lists, world);
    places::store(lists, world, i, m);
}

// Whether the world holds a mapping with exactly this start and size: never one of size 0.
#[tactic(auto, using(crate::proofs::Lists::list_laws))]
pub fn has(lists: &Lists, world: u64, virt: u64, size: u64) -> bool
    ensures { result ≡ has_exactly (held lists.now world) virt size }
{
    0 < places::latest_exact(lists, world, virt, size)
}

// Frees the world's last place with exactly this start and size. Where there is none, nothing changes.
#[tactic(auto, using(crate::proofs::Lists::list_laws))]
pub fn release(lists: &mut Lists, world: u64, virt: u64, size: u64)
    ensures { lists.new ≡ released lists.old world virt size }
{
    let n = places::latest_exact(lists, world, virt, size);
    if n == 0 {
        return;
    }
    places::free(lists, world, n - 1);
}

// Whether `count` pages from the address `start` on meet the physical range of a mapping of the world. A count past any
// window is for the promise alone, which holds of every count.
#[tactic(auto, using(crate::proofs::Lists::list_laws))]
pub fn meets_run(lists: &Lists, world: u64, start: u64, count: u64) -> bool
    ensures { result ≡ meets_run (held lists.now world) start count }
{
    if count < COUNTABLE {
        let size = count * PAGE_SIZE;
        return places::find_range(lists, world, start, size) < MOST_MAPPINGS;
    }
    places::find_on_pages(lists, world, start, count) < MOST_MAPPINGS
}

// Whether a mapping of the world meets the `size` virtual addresses from `start` on.
#[tactic(auto, using(crate::proofs::Lists::list_laws))]
pub fn touches(lists: &Lists, world: u64, start: u64, size: u64) -> bool
    ensures { result ≡ touched (held lists.now world) start size }
{
    places::find_touching(lists, world, start, size) < MOST_MAPPINGS
}

// The mapping that decides the address: the smallest that holds it.
pub fn who_decides(lists: &Lists, world: u64, address: u64) -> Option<Mapping>
    ensures { result ≡ decided_by (deciding (held lists.now world) address) }
{
    let m = places::decider(lists, world, address);
    if m.size == 0 {
        return None;
    }
    Some(m)
}

// Where the address leads, by the mapping that decides it. In a table that a run leaves, the sum does not wrap.
pub fn lead_of(lists: &Lists, world: u64, address: u64) -> Option<Lead>
    ensures { result ≡ lead_of (held lists.now world) address }
{
    let m = who_decides(lists, world, address)?;
    Some(Lead {
        phys: std::num::wrapping_add_u64(m.phys, address - m.virt),
        attr: m.attr,
    })
}
