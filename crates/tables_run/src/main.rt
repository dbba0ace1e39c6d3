// Lists at the edges of the rules of tables. Of each table the entries that are not 0, as table, entry, the number there, and how many
// entries from it on go page by page; then how many tables there are, or 88. Behind them stands where some addresses lead by a walk of
// the tables, those that lead anywhere.
#![tactic(auto)]

ghost use Rattle.std.specs.Prelude.{◌<◌, ◌≤◌};

use mapping::{Lead, Lists, Mapping};
use rules::SECURE;
use std::io;

// Enough for the tables of any run.
const LENT: usize = 22528;

const ENTRIES: u64 = 512;

// The tables that so many numbers hold.
const MOST_TABLES: u64 = 44;

const PAGE: u64 = 0x1000;

const SLOT: u64 = 0x200000;

// Where the window starts in most lists, and the largest mapping of the widest.
const BASE: u64 = 0x80000000;

const WIDEST: u64 = SLOT * (3 * ENTRIES + 256) - PAGE;

fn say(rt: &impl Print, text: &str) -> io::Result<()> {
    print!(rt; "{text}")
}

// How many of so many entries from a place on go page by page.
fn run_at(numbers: &[u64], at: u64, most: u64) -> u64
    requires { (at ≤ 22528) × ((0 < most) × (most ≤ 512)) }
    ensures { (0 < result) × (result ≤ most) }
{
    let first = walks::number_at(numbers, at);
    for n in 1..most {
        if walks::number_at(numbers, at + n) != first.wrapping_add(n * PAGE) {
            return n;
        }
    }
    most
}

// A run of entries, unless they are unused.
fn say_run(rt: &impl Print, table: u64, i: u64, number: u64, n: u64) -> io::Result<()> {
    if number == 0 {
        return Ok(());
    }
    println!(rt; "{table:02x} {i:03x} {number:016x} {n:03x}")
}

fn say_table(rt: &impl Print, numbers: &[u64], table: u64) -> io::Result<()>
    requires { table < 44 }
{
    // a while, since i goes on by whole runs
    let mut i = 0;
    while i < ENTRIES {
        let at = ENTRIES * table + i;
        let n = run_at(numbers, at, ENTRIES - i);
        say_run(rt, table, i, walks::number_at(numbers, at), n)?;
        i += n;
    }
    Ok(())
}

fn say_tables(rt: &impl Print, numbers: &[u64], count: u64) -> io::Result<()> {
    for table in 0..count.min(MOST_TABLES) {
        say_table(rt, numbers, table)?;
    }
    Ok(())
}

// Where an address leads, and what may be done there.
fn say_lead(rt: &impl Print, numbers: &[u64], address: u64) -> io::Result<()> {
    let Some(Lead { phys, attr }) = walks::walk(numbers, address) else {
        return Ok(());
    };
    println!(rt; "{address:08x} to {phys:08x} {attr:x}")
}

// A page, the edges of the first slots, the second GiB, where the widest list begins, and what lies a page behind 2^32.
fn say_leads(rt: &impl Print, numbers: &[u64]) -> io::Result<()> {
    let addresses = [
        PAGE + 8,
        SLOT - 1,
        SLOT,
        SLOT + PAGE + 4,
        2 * SLOT,
        3 * SLOT,
        ENTRIES * SLOT + 0x123456,
        WIDEST,
        0x100000000 + PAGE + 8,
    ];
    for address in addresses {
        say_lead(rt, numbers, address)?;
    }
    Ok(())
}

// The tables of Secure's list, in so many numbers.
fn show(rt: &impl Print, name: &str, lists: &Lists, room: usize) -> io::Result<()>
    requires { room ≤ 22528 }
{
    say(rt, name)?;
    let mut numbers = [0u64; LENT];
    let Some(count) = building::build(&mut numbers[..room], lists, SECURE) else {
        return say(rt, "88\n");
    };
    say_tables(rt, &numbers, count)?;
    println!(rt; "{count:02x}")?;
    say_leads(rt, &numbers)
}

fn map(lists: &mut Lists, virt: u64, phys: u64, size: u64, attr: u64) {
    mapping::hold(
        lists,
        SECURE,
        Mapping {
            virt,
            phys,
            size,
            attr,
        },
    );
}

fn show_one(
    rt: &impl Print,
    name: &str,
    virt: u64,
    phys: u64,
    size: u64,
    attr: u64,
) -> io::Result<()> {
    let mut lists = mapping::fresh();
    map(&mut lists, virt, phys, size, attr);
    show(rt, name, &lists, LENT)
}

// Two mappings fill a slot.
fn show_beside(rt: &impl Print) -> io::Result<()> {
    let mut lists = mapping::fresh();
    map(&mut lists, SLOT, BASE, SLOT / 2, 1);
    map(&mut lists, SLOT + SLOT / 2, BASE + SLOT / 2, SLOT / 2, 1);
    show(rt, "two that fill a slot\n", &lists, LENT)
}

// A page of other attributes in a mapping of two slots.
fn show_page_in(rt: &impl Print) -> io::Result<()> {
    let mut lists = mapping::fresh();
    map(&mut lists, SLOT, BASE, 2 * SLOT, 1);
    map(&mut lists, SLOT + PAGE, BASE + PAGE, PAGE, 0);
    show(rt, "a page inside\n", &lists, LENT)
}

// A page of the same attributes splits its slot too.
fn show_same_in(rt: &impl Print) -> io::Result<()> {
    let mut lists = mapping::fresh();
    map(&mut lists, SLOT, BASE, SLOT, 1);
    map(&mut lists, SLOT + PAGE, BASE + PAGE, PAGE, 1);
    show(rt, "a page of the same attributes inside\n", &lists, LENT)
}

// A whole slot of other attributes in a mapping of three.
fn show_slot_in(rt: &impl Print) -> io::Result<()> {
    let mut lists = mapping::fresh();
    map(&mut lists, SLOT, BASE, 3 * SLOT, 1);
    map(&mut lists, 2 * SLOT, BASE + SLOT, SLOT, 2);
    show(rt, "a slot inside\n", &lists, LENT)
}

// A pair of pages on both sides of a slot's start, in GiB g.
fn map_pair(lists: &mut Lists, i: u64, g: u64, slot: u64)
    requires { (i ≤ 16) × ((g ≤ 4) × ((0 < slot) × (slot ≤ 64))) }
{
    map(
        lists,
        SLOT * (ENTRIES * g + slot) - PAGE,
        BASE + (3584 + 2 * i) * PAGE,
        2 * PAGE,
        1,
    );
}

fn map_pairs(lists: &mut Lists, i: u64, g: u64)
    requires { (i ≤ 13) × (g ≤ 4) }
{
    map_pair(lists, i, g, 2);
    map_pair(lists, i + 1, g, 6);
    map_pair(lists, i + 2, g, 10);
}

// Seven slots that are no blocks and the two beside them, and fifteen pairs of pages: 39 slots in four GiB.
fn show_widest(rt: &impl Print, name: &str, room: usize) -> io::Result<()>
    requires { room ≤ 22528 }
{
    let mut lists = mapping::fresh();
    map(&mut lists, WIDEST, BASE, 3586 * PAGE, 2);
    map_pairs(&mut lists, 1, 0);
    map_pair(&mut lists, 4, 0, 14);
    map_pairs(&mut lists, 5, 1);
    map_pair(&mut lists, 8, 1, 14);
    map_pairs(&mut lists, 9, 2);
    map_pair(&mut lists, 12, 2, 14);
    map_pairs(&mut lists, 13, 3);
    show(rt, name, &lists, room)
}

fn main(rt: HostRuntime) -> io::Result<()> {
    let none = mapping::fresh();
    show(&rt, "nothing\n", &none, LENT)?;
    show(&rt, "nothing in 511 numbers\n", &none, 511)?;
    show_one(&rt, "a page\n", PAGE, BASE + 3 * PAGE, PAGE, 1)?;
    show_one(&rt, "a slot\n", SLOT, BASE + SLOT, SLOT, 2)?;
    show_one(&rt, "a slot at physical 0\n", ENTRIES * SLOT, 0, SLOT, 1)?;
    show_one(&rt, "a slot a page too far\n", SLOT, BASE + PAGE, SLOT, 1)?;
    show_one(
        &rt,
        "two slots and a page on each side\n",
        SLOT - PAGE,
        BASE + SLOT - PAGE,
        2 * SLOT + 2 * PAGE,
        0,
    )?;
    show_beside(&rt)?;
    show_page_in(&rt)?;
    show_same_in(&rt)?;
    show_slot_in(&rt)?;
    show_widest(&rt, "the widest\n", LENT)?;
    show_widest(&rt, "the widest in 22,527 numbers\n", LENT - 1)
}
