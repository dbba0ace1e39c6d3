// An entry that is no table, and how the list answers its addresses.
ghost use Rattle.std.specs.Prelude.{◌≡◌};
ghost use Rattle.tools.specs.Search.{first};
ghost use Rattle.descriptors.specs.Numbers.{span};
ghost use Rattle.mapping.specs.Lists.{held};
ghost use Rattle.vetting.specs.Answers.{same_lead, answer, otherwise};
ghost use Rattle.vetting.specs.Rooms.{Part};

use descriptors::Descriptor;
use mapping::{Lead, Lists};

// Whether both lead to one address with the same attributes, or both nowhere.
#[tactic(auto, unfolding(crate::specs::Answers::same_lead))]
fn is_same(one: Option<Lead>, other: Option<Lead>) -> bool
    ensures { result ≡ same_lead one other }
{
    match (one, other) {
        (Some(a), Some(b)) => a.phys == b.phys && a.attr == b.attr,
        (None, None) => true,
        _ => false,
    }
}

// Where an entry that is no table leads an address.
fn answer_of(below: u64, number: u64, x: u64) -> Option<Lead>
    ensures { result ≡ answer below number x }
{
    let d = descriptors::meaning_of(below, x, number);
    match d {
        Descriptor::Nothing => None,
        Descriptor::Table { at: _ } => None,
        Descriptor::Leaf { phys, attr } => Some(Lead { phys, attr }),
    }
}

// Whether the list answers an address otherwise than the entry does.
fn is_otherwise(lists: &Lists, world: u64, below: u64, number: u64, x: u64) -> bool
    ensures { result ≡ otherwise (held lists.now world) below number x }
{
    !is_same(
        answer_of(below, number, x),
        mapping::lead_of(lists, world, x),
    )
}

// The first address from `start` on that the list answers otherwise, or the end of the entry. Up to the next edge of a mapping
// all addresses are answered as the first is. The loop is a while, since x goes on by whole stretches.
pub(crate) fn first_otherwise(lists: &Lists, world: u64, below: u64, start: u64, number: u64) -> u64
    requires { Part below start }
    ensures { result ≡ first (otherwise (held lists.now world) below number) start (span below) }
{
    let mut x = start;
    let mut left = descriptors::span_of(below);
    while 0 < left {
        if is_otherwise(lists, world, below, number, x) {
            return x;
        }
        let n = stretches::steady(lists, world, x, left);
        x += n;
        left -= n;
    }
    x
}
