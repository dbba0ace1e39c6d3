// How far a world's mappings decide as they do at an address, so that a range is compared by its edges and not page by page.
#![tactic(auto)]

ghost use Rattle.std.specs.Prelude.{◌≡◌};
ghost use Rattle.mapping.specs.Lists.{held};
ghost use Rattle.stretches.specs.Steady.{stretch, steady};

use mapping::{Lists, Mapping};
use rules::MOST_MAPPINGS;

// How many of n addresses from x on come before the next edge of the mapping. An empty one has no edge.
#[tactic(auto, using(crate::specs::Steady::stretching))]
fn stretch(m: Mapping, x: u64, n: u64) -> u64
    ensures { result ≡ stretch m x n }
{
    if m.size == 0 {
        return n;
    }
    if x < m.virt {
        return (m.virt - x).min(n);
    }
    let past = x - m.virt;
    if past < m.size {
        return (m.size - past).min(n);
    }
    n
}

// How many of n addresses from x on come before the next edge of any mapping of the world.
pub fn steady(lists: &Lists, world: u64, x: u64, n: u64) -> u64
    ensures { result ≡ steady (held lists.now world) x n }
{
    let mut left = n;
    for i in 0..MOST_MAPPINGS {
        left = stretch(places::place_of(lists, world, i), x, left);
    }
    left
}
