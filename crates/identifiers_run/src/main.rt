// Splits identifiers into their parts and joins the parts again, a line for each.
#![tactic(auto)]

use identifiers::{Identifier, Parts};
use std::io;

fn say(rt: &impl Print, text: &str) -> io::Result<()> {
    print!(rt; "{text}")
}

fn number(rt: &impl Print, label: &str, n: u32, digits: usize) -> io::Result<()> {
    print!(rt; "{label}{n:0digits$x}")
}

fn say_joined(rt: &impl Print, p: Parts) -> io::Result<()> {
    match Identifier::join(p) {
        Some(i) => number(rt, "joined ", i.0, 8),
        None => say(rt, "too large"),
    }
}

fn say_parts(rt: &impl Print, p: Parts) -> io::Result<()> {
    print!(rt;
        ": fast {:x}, wide {:x}, owner {:02x}, function {:04x}, hint {:x}, reserved {:02x}",
        p.fast, p.wide, p.owner, p.function, p.hint, p.reserved
    )
}

// The parts of the identifier in x0, its key, and what the parts make when joined.
fn show(rt: &impl Print, x0: u64) -> io::Result<()> {
    let i = Identifier::of(x0);
    let p = i.split();
    number(rt, "", i.0, 8)?;
    say_parts(rt, p)?;
    number(rt, "; key ", i.key(), 8)?;
    say(rt, "; ")?;
    say_joined(rt, p)?;
    if p.admitted() {
        say(rt, "; admitted\n")
    } else {
        say(rt, "; not admitted\n")
    }
}

// What becomes of some parts.
fn join(rt: &impl Print, p: Parts) -> io::Result<()> {
    say_joined(rt, p)?;
    say(rt, "\n")
}

// What a call reads of an argument.
fn read(rt: &impl Print, x0: u64, argument: u64) -> io::Result<()> {
    let p = Identifier::of(x0).split();
    let value = p.argument(argument);
    println!(rt; "reads {value:016x}")
}

// The table of calls.
static CALLS: [u64; 18] = [
    0x80000000, 0x80000001, 0x84000000, 0x84000002, 0x84000003, 0xC4000003, 0x84000004, 0xC4000004,
    0x8400000A, 0xC40001B0, 0xC40001B1, 0xC2000010, 0xC2000011, 0xC2000012, 0xC2000020, 0xC2000021,
    0xC2000022, 0xC2000030,
];

// P3, both of P4, and P5; the bit above the hint in a yielding call; and an x0 whose upper half does not count.
static EDGES: [u64; 6] = [
    0xF2000000,
    0x84010000,
    0x84020000,
    0x04010000,
    0x04020000,
    0x1234567884000000,
];

// The largest part of each field.
const LARGEST: Parts = Parts {
    fast: 1,
    wide: 1,
    owner: 63,
    function: 65535,
    hint: 1,
    reserved: 127,
};

// They are joined, and then again with each part one too large.
fn joins(rt: &impl Print) -> io::Result<()> {
    join(rt, LARGEST)?;
    join(rt, Parts { fast: 2, ..LARGEST })?;
    join(rt, Parts { wide: 2, ..LARGEST })?;
    join(
        rt,
        Parts {
            owner: 64,
            ..LARGEST
        },
    )?;
    join(
        rt,
        Parts {
            function: 65536,
            ..LARGEST
        },
    )?;
    join(rt, Parts { hint: 2, ..LARGEST })?;
    join(
        rt,
        Parts {
            reserved: 128,
            ..LARGEST
        },
    )
}

fn main(rt: HostRuntime) -> io::Result<()> {
    for x0 in CALLS.iter().chain(&EDGES) {
        show(&rt, *x0)?;
    }
    joins(&rt)?;
    // a 32-bit call and a 64-bit call
    read(&rt, 0x84000003, 0x1234567890ABCDEF)?;
    read(&rt, 0xC4000003, 0x1234567890ABCDEF)
}
