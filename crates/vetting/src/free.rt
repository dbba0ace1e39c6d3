// Addresses that lead nowhere by the list, known ahead, so that empty entries need not be compared one by one.
ghost use Rattle.std.specs.Prelude.{◌≡◌, ◌≤◌};
ghost use Rattle.mapping.specs.Lists.{held};
ghost use Rattle.vetting.specs.Rooms.{Part};
ghost use Rattle.vetting.specs.Free.{FreeTo, is_free};

use descriptors::GIB_SIZE;
use mapping::{Lead, Lists};

// Whether bit 0 is clear and all addresses of the entry come before `free`.
#[tactic(auto, using(crate::specs::Free::free_by, crate::specs::Free::free_not))]
pub(crate) fn is_free(below: u64, start: u64, number: u64, free: u64) -> bool
    requires { Part below start }
    ensures { result ≡ is_free below start number free }
{
    number % 2 == 0 && start + descriptors::span_of(below) <= free
}

// Up to where the addresses from x on lead nowhere: to the next edge of a mapping, or a GiB.
fn free_until(lists: &Lists, world: u64, x: u64) -> u64
    requires { x ≤ 549755813888 }
    ensures { FreeTo (held lists.now world) x result }
{
    let lead = mapping::lead_of(lists, world, x);
    match lead {
        Some(Lead { phys: _, attr: _ }) => x,
        None => x + stretches::steady(lists, world, x, GIB_SIZE),
    }
}

// The same behind an entry that ends at `end`: looked for anew where an empty entry went past what was known.
pub(crate) fn freed(lists: &Lists, world: u64, end: u64, number: u64, free: u64) -> u64
    requires { (end ≤ 549755813888) × FreeTo (held lists.now world) end free }
    ensures { FreeTo (held lists.now world) end result }
{
    if number % 2 == 1 || end < free {
        return free;
    }
    free_until(lists, world, end)
}
