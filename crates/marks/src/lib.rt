// Marks of four bits, sixteen in one number, that of the lowest page in the lowest bits; and whose each mark is.
#![tactic(auto)]

ghost use Rattle.std.specs.Prelude.{◌≡◌, ◌*◌, ◌%◌, ◌^◌};
ghost use Rattle.marks.specs.Digits.{digit, put};
ghost use Rattle.marks.specs.Owners.{mark_of, owner_of};

use rules::{NORMAL, REALM, ROOT, SECURE, WORLDS};

// The mark of each owner's pages.
const SECURES: u64 = 0x8;

const NORMALS: u64 = 0x9;

const ROOTS: u64 = 0xA;

const REALMS: u64 = 0xB;

// The mark of no page.
pub const NOBODYS: u64 = 0;

// What a mark at the place of a page counts.
#[tactic(auto, using(crate::specs::Digits::unit_is))]
fn unit_of(page: u64) -> u64
    ensures { result ≡ 2 ^ (4 * (page % 16)) }
{
    1u64 << (4 * (page % 16))
}

// The mark of a page in its number.
#[tactic(auto, using(crate::specs::Digits::digit_is))]
pub fn read(number: u64, page: u64) -> u64
    ensures { result ≡ digit number (page % 16) }
{
    (number >> (4 * (page % 16))) % 16
}

// The number with another mark for a page, of which the low four bits count.
pub fn write(number: u64, page: u64, mark: u64) -> u64
    ensures { result ≡ put number (page % 16) (mark % 16) }
{
    let unit = unit_of(page);
    let was = read(number, page);
    number - was * unit + mark % 16 * unit
}

// The mark of an owner: 0, which is nobody's, where there is no such owner.
#[tactic(auto, using(rules::specs::Tests::choices), unfolding(crate::specs::Owners::mark_of))]
pub fn mark_of(owner: u64) -> u64
    ensures { result ≡ mark_of owner }
{
    match owner {
        SECURE => SECURES,
        NORMAL => NORMALS,
        ROOT => ROOTS,
        REALM => REALMS,
        _ => NOBODYS,
    }
}

// The owner with the mark: one past the last world where the mark is nobody's.
#[tactic(auto, using(rules::specs::Tests::choices), unfolding(crate::specs::Owners::owner_of))]
pub fn owner_of(mark: u64) -> u64
    ensures { result ≡ owner_of mark }
{
    match mark {
        SECURES => SECURE,
        NORMALS => NORMAL,
        ROOTS => ROOT,
        REALMS => REALM,
        _ => WORLDS,
    }
}
