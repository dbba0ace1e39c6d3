// Builds the tables of a world's mappings into lent numbers: all of them, or none where they do not fit.
#![tactic(auto)]

ghost use Rattle.std.specs.Prelude.{◌≡◌, ◌+◌, ◌*◌, ◌≤◌, ◌<◌, set};
ghost use Rattle.tools.specs.Laid.{laid};
ghost use Rattle.mapping.specs.Lists.{held};
ghost use Rattle.layout.specs.Rows.{rows, nil};
ghost use Rattle.layout.specs.Layout.{part, tables, below, entry_at, tree};
ghost use Rattle.layout.specs.Limbs.{limb};
ghost use Rattle.building.specs.Writing.{Inside, InsidePart, Fit, FitPart};
ghost use Rattle.building.specs.Gaps.{Gap};
ghost use Rattle.building.specs.Built.{built};

use mapping::Lists;
use rules::PAGE_SIZE;

// How many entries a table has.
const ENTRIES: u64 = 512;

// Where the addresses of entry i start.
fn part_of(level: u64, a: u64, i: u64) -> u64
    requires { Inside level a × (i < 512) }
    ensures { result ≡ part level a i }
{
    a + i * descriptors::span_of(level)
}

// How many entries from the one at b on no mapping touches, of so many: none where one touches that entry.
#[tactic(auto, using(crate::specs::Gaps::gaps))]
fn gap_of(lists: &Lists, world: u64, level: u64, b: u64, most: u64) -> u64
    requires { (0 < most) × (most ≤ 512) }
    ensures { Gap (held lists.now world) level b most result }
{
    let size = descriptors::span_of(level);
    if mapping::touches(lists, world, b, size) {
        return 0;
    }
    let n = stretches::steady(lists, world, b, most * size) / size;
    if n == 0 {
        return 1;
    }
    n
}

// How many tables the addresses of a table take. Entries that nothing touches are passed over: this loop and the two below are a
// while, since i goes on by whole gaps.
#[cycle(below_of_tables_of)]
#[tactic(auto, using(crate::specs::Writing::counting))]
fn tables_of(lists: &Lists, world: u64, level: u64, a: u64) -> u64
    requires { Inside level a }
    ensures { result ≡ tables (held lists.now world) level a }
{
    if level == 0 {
        return 1;
    }
    let mut n = 1;
    let mut i = 0;
    while i < ENTRIES {
        i += gap_of(lists, world, level, part_of(level, a, i), ENTRIES - i);
        if ENTRIES <= i {
            return n;
        }
        n += below_of(lists, world, level, part_of(level, a, i));
        i += 1;
    }
    n
}

// How many of them stand below an entry.
#[cycle(below_of_tables_of)]
#[tactic(auto, using(crate::specs::Writing::counting))]
fn below_of(lists: &Lists, world: u64, level: u64, b: u64) -> u64
    requires { InsidePart level b }
    ensures { result ≡ below (held lists.now world) level b }
{
    if level == 0 {
        return 0;
    }
    if entries::is_deeper(lists, world, level, b) {
        return tables_of(lists, world, level - 1, b);
    }
    0
}

// Puts a number at a place; past the end nothing changes.
#[tactic(auto, using(crate::specs::Writing::writing))]
fn put(numbers: &mut [u64], at: u64, v: u64)
    ensures { numbers.new ≡ set numbers.old at v }
{
    let i = at as usize;
    if i < numbers.len() {
        numbers[i] = v;
    }
}

// Puts n zeros from a place on.
fn clear(numbers: &mut [u64], at: u64, n: u64)
    requires { (at ≤ 134480896) × (n ≤ 512) }
    ensures { numbers.new ≡ laid numbers.old at (rows nil n) }
{
    for i in 0..n {
        put(numbers, at + i, 0);
    }
}

// Writes the entries of table t.
fn write_row(numbers: &mut [u64], lists: &Lists, world: u64, level: u64, a: u64, t: u64)
    requires { Fit (held lists.now world) level a t }
    ensures { numbers.new ≡ laid numbers.old (512 * t) (rows (entry_at (held lists.now world) level a t) 512) }
{
    let mut next = t + 1;
    let mut i = 0;
    while i < ENTRIES {
        let gap = gap_of(lists, world, level, part_of(level, a, i), ENTRIES - i);
        clear(numbers, ENTRIES * t + i, gap);
        i += gap;
        if ENTRIES <= i {
            return;
        }
        let b = part_of(level, a, i);
        let e = entries::entry_of(lists, world, level, b, PAGE_SIZE * next);
        put(numbers, ENTRIES * t + i, e);
        next += below_of(lists, world, level, b);
        i += 1;
    }
}

// Writes table t, and behind it the tables below its entries. Says the number of the next table.
#[cycle(write_limb_write_tree)]
fn write_tree(numbers: &mut [u64], lists: &Lists, world: u64, level: u64, a: u64, t: u64) -> u64
    requires { Fit (held lists.now world) level a t }
    ensures { (result ≡ t + tables (held lists.now world) level a) × (numbers.new ≡ laid numbers.old (512 * t) (tree (held lists.now world) level a t)) }
{
    write_row(numbers, lists, world, level, a, t);
    let mut next = t + 1;
    let mut i = 0;
    while i < ENTRIES {
        i += gap_of(lists, world, level, part_of(level, a, i), ENTRIES - i);
        if ENTRIES <= i {
            return next;
        }
        next = write_limb(numbers, lists, world, level, part_of(level, a, i), next);
        i += 1;
    }
    next
}

// Writes the tables below an entry, from table t on. Says the number of the next table.
#[cycle(write_limb_write_tree)]
fn write_limb(numbers: &mut [u64], lists: &Lists, world: u64, level: u64, b: u64, t: u64) -> u64
    requires { FitPart (held lists.now world) level b t }
    ensures { (result ≡ t + below (held lists.now world) level b) × (numbers.new ≡ laid numbers.old (512 * t) (limb (held lists.now world) level b t)) }
{
    if level == 0 {
        return t;
    }
    if entries::is_deeper(lists, world, level, b) {
        return write_tree(numbers, lists, world, level - 1, b, t);
    }
    t
}

// Builds the tables of the world's mappings, from the first of the numbers on, and says how many they are. Numbers past the tables
// stay; where the tables do not fit, all do, and there is no count.
#[tactic(auto, using(crate::specs::Built::outcomes))]
pub fn build(numbers: &mut [u64], lists: &Lists, world: u64) -> Option<u64>
    ensures { (result, numbers.new) ≡ built (held lists.now world) numbers.old }
{
    let count = tables_of(lists, world, 2, 0);
    let room = numbers.len() as u64;
    if room < ENTRIES * count {
        return None;
    }
    write_tree(numbers, lists, world, 2, 0, 0);
    Some(count)
}
