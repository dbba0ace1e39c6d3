// The walk of tables that lie in lent numbers: a level at a time, from level 1 at 0 on, whatever the numbers are.
#![tactic(auto, using(crate::specs::Walk::walking))]

ghost use Rattle.std.specs.Prelude.{◌≡◌, get_or};
ghost use Rattle.walks.specs.Walk.{entry_for, descended, walked};

use descriptors::Descriptor;
use mapping::Lead;
use rules::VIRTUAL_LIMIT;

// How many entries a table has, and how many levels there are.
pub const ENTRIES: u64 = 512;

const LEVELS: u64 = 3;

// The number at a place, 0 past the end.
pub fn number_at(numbers: &[u64], at: u64) -> u64
    ensures { result ≡ get_or numbers.now at 0 }
{
    numbers.get(at as usize).copied().unwrap_or(0)
}

// The entry for an address in the table at a byte offset.
pub fn entry_for(numbers: &[u64], below: u64, table: u64, address: u64) -> u64
    ensures { result ≡ entry_for numbers.now below table address }
{
    number_at(
        numbers,
        table / 8 + descriptors::whole_of(below, address) % ENTRIES,
    )
}

// Where the address leads by the table at a byte offset, with so many levels to go.
fn descend(numbers: &[u64], levels: u64, table: u64, address: u64) -> Option<Lead>
    ensures { result ≡ descended numbers.now levels table address }
{
    if levels == 0 {
        return None;
    }
    let below = levels - 1;
    let d = descriptors::meaning_of(below, address, entry_for(numbers, below, table, address));
    match d {
        Descriptor::Nothing => None,
        Descriptor::Table { at } => descend(numbers, below, at, address),
        Descriptor::Leaf { phys, attr } => Some(Lead { phys, attr }),
    }
}

// Where the address leads by the tables in the numbers.
pub fn walk(numbers: &[u64], address: u64) -> Option<Lead>
    ensures { result ≡ walked numbers.now address }
{
    if VIRTUAL_LIMIT <= address {
        return None;
    }
    descend(numbers, LEVELS, 0, address)
}
