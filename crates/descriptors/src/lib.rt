// One number of a table: what it spans, what it says, and the numbers that say it. A level is known by how many levels are
// below it: 0 for pages, 1 for slots of 2 MiB, 2 for GiBs.
#![tactic(auto)]

ghost use Rattle.std.specs.Prelude.{◌≡◌, ◌/◌, ◌%◌, ◌<◌, ◌≤◌};
ghost use Rattle.descriptors.specs.Numbers.{span, kind_of, base_of, attr_of, leaf_number, table_number};
ghost use Rattle.descriptors.specs.Meaning.{is_table, leaf_at, proper, reserved, meaning};

use rules::{PAGE_SIZE, WINDOW_LIMIT};

// What a slot and a GiB have in bytes.
pub const SLOT_SIZE: u64 = 0x200000;

pub const GIB_SIZE: u64 = 0x40000000;

// Bits 1 to 0.
const BLOCK: u64 = 1;

const TABLE_OR_PAGE: u64 = 3;

// Bit 10, which every page and block has.
const ACCESSED: u64 = 0x400;

// Bit 7, unless it may be written, and bit 54, unless it may be run.
const READ_ONLY: u64 = 0x80;

const NEVER_RUN: u64 = 0x40000000000000;

#[derive(Clone, Copy)]
pub enum Descriptor {
    // it leads nowhere: bit 0 is clear, or the number is reserved
    Nothing,
    // the next table, by its byte offset
    Table { at: u64 },
    // a page or a block: where the address leads
    Leaf { phys: u64, attr: u64 },
}

// The bytes that one entry covers.
#[tactic(auto, using(crate::specs::Numbers::sizes))]
pub fn span_of(below: u64) -> u64
    ensures { result ≡ span below }
{
    match below {
        0 => PAGE_SIZE,
        1 => SLOT_SIZE,
        _ => GIB_SIZE,
    }
}

// How many whole spans of a level a number has. Here and in the next function each span stands as a constant, so that the compiler
// makes no division of it.
#[tactic(auto, using(crate::specs::Numbers::parts))]
pub fn whole_of(below: u64, x: u64) -> u64
    ensures { result ≡ x / span below }
{
    match below {
        0 => x / PAGE_SIZE,
        1 => x / SLOT_SIZE,
        _ => x / GIB_SIZE,
    }
}

// What is left of it behind them.
#[tactic(auto, using(crate::specs::Numbers::parts))]
fn rest_of(below: u64, x: u64) -> u64
    ensures { result ≡ x % span below }
{
    match below {
        0 => x % PAGE_SIZE,
        1 => x % SLOT_SIZE,
        _ => x % GIB_SIZE,
    }
}

// Bits 1 to 0 of a page or a block.
#[tactic(auto, using(crate::specs::Numbers::sizes))]
fn kind_of(below: u64) -> u64
    ensures { (result ≡ kind_of below) × (result ≤ 3) }
{
    match below {
        0 => TABLE_OR_PAGE,
        _ => BLOCK,
    }
}

// Bits 47 to 12 of a number, and zeros.
pub fn base_of(number: u64) -> u64
    ensures { result ≡ base_of 4096 number }
{
    number % WINDOW_LIMIT / PAGE_SIZE * PAGE_SIZE
}

// The number of a page or a block at a physical address, cut to bits 47 to 12.
pub fn leaf_number(below: u64, phys: u64, attr: u64) -> u64
    ensures { result ≡ leaf_number below phys attr }
{
    let read_only = READ_ONLY * (1 - attr % 2);
    let never_run = NEVER_RUN * (1 - attr / 2 % 2);
    kind_of(below) + ACCESSED + read_only + base_of(phys) + never_run
}

// The number of a table at a byte offset, cut to bits 47 to 12.
pub fn table_number(at: u64) -> u64
    ensures { result ≡ table_number at }
{
    TABLE_OR_PAGE + base_of(at)
}

// The attributes that a page or block gives: 1 writable, 2 executable, 3 both.
fn attr_of(number: u64) -> u64
    ensures { result ≡ attr_of number }
{
    1 - number / READ_ONLY % 2 + 2 * (1 - number / NEVER_RUN % 2)
}

// The start of a page or block: bits 47 to that of its size, and zeros.
fn start_of(below: u64, number: u64) -> u64
    ensures { (result ≡ base_of (span below) number) × (result < 281474976710656) }
{
    let address = number % WINDOW_LIMIT;
    address - rest_of(below, address)
}

// Where a page or block leads an address in it.
#[tactic(auto, using(crate::specs::Meaning::meanings))]
fn leaf_at(below: u64, address: u64, number: u64) -> Descriptor
    ensures { result ≡ leaf_at below address number }
{
    let start = start_of(below, number);
    Descriptor::Leaf {
        phys: start + rest_of(below, address),
        attr: attr_of(number),
    }
}

// Whether the number leads to a table, by bits 1 to 0.
#[tactic(auto, using(crate::specs::Meaning::meanings))]
pub fn is_table(below: u64, number: u64) -> bool
    ensures { result ≡ is_table below number }
{
    below != 0 && number % 4 == TABLE_OR_PAGE
}

// Whether it is the very number of the table, page or block that it leads to.
#[tactic(auto, using(crate::specs::Meaning::meanings))]
fn is_proper(below: u64, number: u64) -> bool
    ensures { result ≡ proper below number }
{
    if is_table(below, number) {
        return number == table_number(base_of(number));
    }
    below <= 1 && number == leaf_number(below, start_of(below, number), attr_of(number))
}

// Whether bit 0 is set and a part of the number has no meaning.
#[tactic(auto, using(crate::specs::Meaning::meanings))]
pub fn is_reserved(below: u64, number: u64) -> bool
    ensures { result ≡ reserved below number }
{
    number % 2 != 0 && !is_proper(below, number)
}

// What the number says of an address that it covers.
#[tactic(auto, using(crate::specs::Meaning::meanings))]
pub fn meaning_of(below: u64, address: u64, number: u64) -> Descriptor
    ensures { result ≡ meaning below address number }
{
    if number % 2 == 0 || is_reserved(below, number) {
        return Descriptor::Nothing;
    }
    if is_table(below, number) {
        return Descriptor::Table {
            at: base_of(number),
        };
    }
    leaf_at(below, address, number)
}
