// Tables that another tool made, vetted against what a world has mapped: accepted, or the first refusal with its virtual address.
// The pass goes by ascending address, an upper entry before those of its table. Nothing is written, and of the tables nothing is
// kept from entry to entry.
#![tactic(auto)]

mod answers;
mod free;
mod reached;

ghost use Rattle.std.specs.Prelude.{◌≡◌, ◌≤◌, ◌<◌, length};
ghost use Rattle.mapping.specs.Lists.{held};
ghost use Rattle.vetting.specs.Reached.{again};
ghost use Rattle.vetting.specs.Pass.{place, outside, compared, scan, judged, judged_at, vetted};
ghost use Rattle.vetting.specs.Rooms.{Room, Part};
ghost use Rattle.vetting.specs.Free.{FreeTo};
ghost use Rattle.vetting.specs.Outcome.{status_of, came};

use mapping::Lists;
use walks::ENTRIES;

// Why tables are refused.
#[derive(Clone, Copy)]
pub enum Fault {
    // a table that does not lie wholly in the numbers
    TableOutside,
    // a reserved descriptor
    Reserved,
    // a table that was reached before
    TableAgain,
    // an address that the list answers otherwise
    Otherwise,
}

// The statuses of the refusals.
impl From<Fault> for u64 {
    ghost from_gives = { λ f n. n ≡ status_of f };

    fn from(fault: Fault) -> u64 {
        match fault {
            Fault::TableOutside => 0x8A,
            Fault::Reserved => 0x8B,
            Fault::TableAgain => 0x8C,
            Fault::Otherwise => 0x8D,
        }
    }
}

// Why, and the virtual address where it arose.
#[derive(Clone, Copy)]
pub struct Refusal {
    pub fault: Fault,
    pub at: u64,
}

// How many entries of level 1 are judged: those of the addresses below 2^32.
const JUDGED: u64 = 4;

// Whether it is a table that does not lie wholly in the numbers, by bits 47 to 12 alone.
#[tactic(auto, using(crate::specs::Scans::outsides))]
fn is_outside(numbers: &[u64], below: u64, number: u64) -> bool
    ensures { result ≡ outside (length numbers.now) below number }
{
    descriptors::is_table(below, number)
        && (numbers.len() as u64) < descriptors::base_of(number) / 8 + ENTRIES
}

// Whether it is a table that was reached before.
#[tactic(auto, using(crate::specs::Reached::again_not, crate::specs::Reached::again_by))]
fn is_again(numbers: &[u64], below: u64, start: u64, number: u64) -> bool
    requires { start ≤ 549755813888 }
    ensures { result ≡ again numbers.now below start number }
{
    descriptors::is_table(below, number)
        && reached::is_earlier(numbers, below, start, descriptors::base_of(number))
}

// Each address of an entry that is no table against the list.
#[tactic(auto, using(crate::specs::Scans::comparing))]
fn compare(lists: &Lists, world: u64, below: u64, start: u64, number: u64) -> Result<(), Refusal>
    requires { Part below start }
    ensures { came result ≡ compared (held lists.now world) below start number }
{
    let x = answers::first_otherwise(lists, world, below, start, number);
    if x < start + descriptors::span_of(below) {
        return Err(Refusal {
            fault: Fault::Otherwise,
            at: x,
        });
    }
    Ok(())
}

// Where the part of a table's region begins that is its entry's.
fn place_at(below: u64, region: u64, i: u64) -> u64
    requires { Room below region × (i < 512) }
    ensures { result ≡ place below region i }
{
    region + i * descriptors::span_of(below)
}

// The entry for the addresses from `start` on, and what lies below it. Those before `free` are known to lead nowhere.
#[cycle(judge_judge_row)]
#[tactic(auto, using(crate::specs::Scans::judging))]
fn judge(
    numbers: &[u64],
    lists: &Lists,
    world: u64,
    below: u64,
    start: u64,
    number: u64,
    free: u64,
) -> Result<(), Refusal>
    requires { Part below start × FreeTo (held lists.now world) start free }
    ensures { came result ≡ judged numbers.now (held lists.now world) below start number }
{
    if free::is_free(below, start, number, free) {
        return Ok(());
    }
    if is_outside(numbers, below, number) {
        return Err(Refusal {
            fault: Fault::TableOutside,
            at: start,
        });
    }
    if descriptors::is_reserved(below, number) {
        return Err(Refusal {
            fault: Fault::Reserved,
            at: start,
        });
    }
    if is_again(numbers, below, start, number) {
        return Err(Refusal {
            fault: Fault::TableAgain,
            at: start,
        });
    }
    if descriptors::is_table(below, number) {
        let table = descriptors::base_of(number);
        return judge_row(numbers, lists, world, below - 1, table, start, ENTRIES);
    }
    compare(lists, world, below, start, number)
}

// The first n entries of a table, in their order, each for its part of the table's region.
#[cycle(judge_judge_row)]
fn judge_row(
    numbers: &[u64],
    lists: &Lists,
    world: u64,
    below: u64,
    table: u64,
    region: u64,
    n: u64,
) -> Result<(), Refusal>
    requires { Room below region × (n ≤ 512) }
    ensures { came result ≡ scan (judged_at numbers.now (held lists.now world) below table region) 0 n }
{
    let mut free = 0;
    for i in 0..n {
        let start = place_at(below, region, i);
        let number = walks::number_at(numbers, table / 8 + i);
        judge(numbers, lists, world, below, start, number, free)?;
        free = free::freed(
            lists,
            world,
            start + descriptors::span_of(below),
            number,
            free,
        );
    }
    Ok(())
}

// Vets the tables in the numbers, whatever these are, against what the world has mapped.
#[tactic(auto, using(crate::specs::Scans::vetting, crate::specs::Rooms::top_room))]
pub fn vet(numbers: &[u64], lists: &Lists, world: u64) -> Result<(), Refusal>
    ensures { came result ≡ vetted numbers.now (held lists.now world) }
{
    let size = numbers.len() as u64;
    if size < ENTRIES {
        return Err(Refusal {
            fault: Fault::TableOutside,
            at: 0,
        });
    }
    judge_row(numbers, lists, world, 2, 0, 0, JUDGED)
}
