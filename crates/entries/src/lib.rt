// What stands in an entry of a table, by the list of mappings and the addresses that the entry covers.
#![tactic(auto, using(crate::specs::Tests::entries, crate::specs::Tests::blocks))]

ghost use Rattle.std.specs.Prelude.{◌≡◌, ◌<◌, ◌≤◌, ◌&&◌};
ghost use Rattle.mapping.specs.Lists.{held};
ghost use Rattle.mapping.specs.Mapping.{deciding};
ghost use Rattle.entries.specs.Tests.{Alike};
ghost use Rattle.entries.specs.Entries.{same, is_by, throughout, allowed, physical, block, leaf, whole, deeper, entry};

use mapping::{Lead, Lists, Mapping};
use rules::PAGE_SIZE;

// How many pages a slot has.
const SLOT_PAGES: u64 = 512;

// How many trailing zero bits a block's address has at the least.
const BLOCK_ZEROS: u32 = 21;

// Whether the two are one mapping, in all four numbers.
#[tactic(auto, unfolding(crate::specs::Entries::same))]
fn is_same(m: Mapping, n: Mapping) -> bool
    ensures { result ≡ same m n }
{
    m.virt == n.virt && m.phys == n.phys && m.size == n.size && m.attr == n.attr
}

// Whether it is this mapping that decides the address.
fn is_decided_by(lists: &Lists, world: u64, m: Mapping, address: u64) -> bool
    ensures { result ≡ is_by m (deciding (held lists.now world) address) }
{
    match mapping::who_decides(lists, world, address) {
        Some(n) => is_same(m, n),
        None => false,
    }
}

// How many of so many pages from an address on are seen to be decided as the first is. Where a sum could wrap, one is seen at a time.
fn pages_alike(lists: &Lists, world: u64, start: u64, most: u64) -> u64
    requires { (0 < most) × (most ≤ 512) }
    ensures { Alike (held lists.now world) start most result }
{
    let wanted = most * PAGE_SIZE;
    if u64::MAX - wanted < start {
        return 1;
    }
    let n = stretches::steady(lists, world, start, wanted);
    (n - 1) / PAGE_SIZE + 1
}

// Whether the mapping decides each page of the slot.
fn is_throughout(lists: &Lists, world: u64, m: Mapping, slot: u64) -> bool
    ensures { result ≡ throughout (held lists.now world) m slot }
{
    // a while, since a pass goes on by as many pages as are decided alike
    let mut page = 0;
    let mut unseen = SLOT_PAGES;
    while 0 < unseen {
        let start = std::num::wrapping_add_u64(slot, page * PAGE_SIZE);
        if is_decided_by(lists, world, m, start) {
            let n = pages_alike(lists, world, start, unseen);
            page += n;
            unseen -= n;
        } else {
            return false;
        }
    }
    true
}

// Whether the mapping that decides the slot's start makes it a block.
fn is_block_by(lists: &Lists, world: u64, m: Mapping, slot: u64) -> bool
    requires { m.virt ≤ slot }
    ensures { result ≡ (allowed (physical m slot) && throughout (held lists.now world) m slot) }
{
    let start = std::num::wrapping_add_u64(m.phys, slot - m.virt);
    BLOCK_ZEROS <= start.trailing_zeros() && is_throughout(lists, world, m, slot)
}

// Whether the slot is a block: one mapping decides throughout it, and its physical start has the zeros.
fn is_block(lists: &Lists, world: u64, slot: u64) -> bool
    ensures { result ≡ block (held lists.now world) slot }
{
    match mapping::who_decides(lists, world, slot) {
        Some(m) => is_block_by(lists, world, m, slot),
        None => false,
    }
}

// Whether the entry itself says where its addresses lead.
fn is_whole(lists: &Lists, world: u64, level: u64, b: u64) -> bool
    ensures { result ≡ whole (held lists.now world) level b }
{
    match level {
        0 => true,
        1 => is_block(lists, world, b),
        _ => false,
    }
}

// Whether a table stands below the entry.
pub fn is_deeper(lists: &Lists, world: u64, level: u64, b: u64) -> bool
    ensures { result ≡ deeper (held lists.now world) level b }
{
    !is_whole(lists, world, level, b)
        && mapping::touches(lists, world, b, descriptors::span_of(level))
}

// The number of a page or block that leads there.
fn leaf_for(level: u64, lead: Option<Lead>) -> u64
    ensures { result ≡ leaf level lead }
{
    match lead {
        Some(Lead { phys, attr }) => descriptors::leaf_number(level, phys, attr),
        None => 0,
    }
}

// The entry for the addresses from b on, `at` being the byte offset of the table below it, if one stands there.
pub fn entry_of(lists: &Lists, world: u64, level: u64, b: u64, at: u64) -> u64
    ensures { result ≡ entry (held lists.now world) level b at }
{
    if is_whole(lists, world, level, b) {
        return leaf_for(level, mapping::lead_of(lists, world, b));
    }
    if mapping::touches(lists, world, b, descriptors::span_of(level)) {
        return descriptors::table_number(at);
    }
    0
}
