// Whether a table was reached before, by asking the entries before again: nothing is remembered.
ghost use Rattle.std.specs.Prelude.{◌≡◌, ◌≤◌};
ghost use Rattle.tools.specs.Search.{any};
ghost use Rattle.vetting.specs.Reached.{is_at, gib, slot, says, leads, gibs_before, earlier};

use descriptors::{Descriptor, GIB_SIZE, SLOT_SIZE};

// Whether it is the table at this byte offset.
#[tactic(auto, using(crate::specs::Reached::saying))]
fn is_at(to: u64, d: Descriptor) -> bool
    ensures { result ≡ is_at to d }
{
    match d {
        Descriptor::Nothing => false,
        Descriptor::Table { at } => at == to,
        Descriptor::Leaf { phys: _, attr: _ } => false,
    }
}

// What the entry of level 1 says of an address.
#[tactic(auto, using(crate::specs::Reached::saying))]
fn gib_of(numbers: &[u64], x: u64) -> Descriptor
    ensures { result ≡ gib numbers.now x }
{
    descriptors::meaning_of(2, x, walks::entry_for(numbers, 2, 0, x))
}

// What the entry of level 2 says of an address, nothing where there is none.
#[tactic(auto, using(crate::specs::Reached::saying))]
fn slot_of(numbers: &[u64], x: u64) -> Descriptor
    ensures { result ≡ slot numbers.now x }
{
    let d = gib_of(numbers, x);
    match d {
        Descriptor::Nothing => Descriptor::Nothing,
        Descriptor::Table { at } => descriptors::meaning_of(
            1,
            x,
            walks::entry_for(numbers, 1, at, x),
        ),
        Descriptor::Leaf { phys: _, attr: _ } => Descriptor::Nothing,
    }
}

// The one where two levels are below, else the other.
#[tactic(auto, using(crate::specs::Reached::saying))]
fn says_of(numbers: &[u64], below: u64, x: u64) -> Descriptor
    ensures { result ≡ says numbers.now below x }
{
    if below == 2 {
        return gib_of(numbers, x);
    }
    slot_of(numbers, x)
}

// Whether one of the first n entries of a level leads to the table.
fn is_led_to(numbers: &[u64], below: u64, to: u64, n: u64) -> bool
    requires { n ≤ 1048576 }
    ensures { result ≡ any (leads numbers.now below to) 0 n }
{
    for i in 0..n {
        if is_at(to, says_of(numbers, below, i * descriptors::span_of(below))) {
            return true;
        }
    }
    false
}

// How many entries of level 1 come before an entry for the addresses from `start` on: the one above it does.
#[tactic(auto, using(crate::specs::Reached::reaching))]
fn gibs_before(below: u64, start: u64) -> u64
    requires { start ≤ 549755813888 }
    ensures { (result ≡ gibs_before below start) × (result ≤ 1048576) }
{
    if below == 1 {
        return start / GIB_SIZE + 1;
    }
    start / GIB_SIZE
}

// Whether the table is that of level 1, or an entry before this one leads to it.
#[tactic(auto, using(crate::specs::Reached::reaching))]
pub(crate) fn is_earlier(numbers: &[u64], below: u64, start: u64, to: u64) -> bool
    requires { start ≤ 549755813888 }
    ensures { result ≡ earlier numbers.now below start to }
{
    to == 0
        || is_led_to(numbers, 2, to, gibs_before(below, start))
        || is_led_to(numbers, 1, to, start / SLOT_SIZE)
}
