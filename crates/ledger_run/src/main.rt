// Tries entries on two ledgers and looks pairs up in them, a line for each.
#![tactic(auto)]

use ledger::Ledger;
use rules::Fault;
use std::io;

// An entry of first and last owner, type and handler; a lookup of type and owner; or how many places are in use.
#[derive(Clone, Copy)]
enum Step {
    Enter(u64, u64, u64, u64),
    Look(u32, u32),
    Count,
}

fn say(rt: &impl Print, text: &str) -> io::Result<()> {
    print!(rt; "{text}")
}

fn number(rt: &impl Print, label: &str, n: u64) -> io::Result<()> {
    print!(rt; "{label}{n}")
}

fn enter(
    rt: &impl Print,
    t: &mut Ledger,
    first: u64,
    last: u64,
    kind: u64,
    handler: u64,
) -> io::Result<()> {
    print!(rt; "owners {first} to {last}, type {kind}, for handler {handler}")?;
    match ledger::enter(t, first, last, kind, handler) {
        Ok(()) => say(rt, ": accepted\n"),
        Err(Fault::OutOfRange) => say(rt, ": out of range\n"),
        Err(Fault::Taken) => say(rt, ": taken\n"),
    }
}

fn look(rt: &impl Print, t: &Ledger, kind: u32, owner: u32) -> io::Result<()> {
    print!(rt; "type {kind}, owner {owner}")?;
    match ledger::handler_of(t, kind, owner) {
        Some(h) => number(rt, ": handler ", h)?,
        None => say(rt, ": nobody")?,
    }
    say(rt, "\n")
}

fn count(rt: &impl Print, t: &Ledger) -> io::Result<()> {
    println!(rt; "places in use: {}", ledger::used(t))
}

// The steps on the first ledger, in their order.
static STEPS: [Step; 28] = [
    Step::Count,
    Step::Look(1, 4),
    // entries that name the same owners
    Step::Enter(4, 6, 1, 2),
    Step::Look(1, 4),
    Step::Look(1, 6),
    // owner 6 is taken, so that 7 and 8 stay free
    Step::Enter(6, 8, 1, 3),
    Step::Look(1, 6),
    Step::Look(1, 7),
    Step::Look(1, 8),
    Step::Enter(7, 8, 1, 3),
    Step::Look(1, 7),
    // an entry around others, and one that was accepted before
    Step::Enter(0, 63, 1, 0),
    Step::Look(1, 0),
    Step::Enter(4, 6, 1, 2),
    // the same owners, for yielding calls
    Step::Enter(0, 63, 0, 3),
    Step::Look(0, 4),
    Step::Look(0, 63),
    // either side of each range
    Step::Enter(3, 2, 1, 0),
    Step::Enter(60, 64, 1, 0),
    Step::Look(1, 60),
    Step::Enter(60, 60, 2, 0),
    Step::Enter(60, 60, 1, 4),
    // out of range decides before taken
    Step::Enter(4, 64, 1, 2),
    Step::Enter(60, 63, 1, 3),
    Step::Look(1, 63),
    Step::Look(1, 64),
    Step::Look(2, 4),
    // 4 to 6, 7 to 8 and 60 to 63, and the yielding ones
    Step::Count,
];

// The steps on the second: all owners of each type in one entry.
static WHOLE: [Step; 9] = [
    Step::Enter(0, 63, 1, 1),
    Step::Enter(0, 63, 0, 2),
    Step::Look(1, 0),
    Step::Look(1, 63),
    Step::Look(0, 0),
    Step::Look(0, 63),
    Step::Enter(63, 63, 1, 3),
    Step::Enter(0, 0, 0, 0),
    Step::Count,
];

fn play(rt: &impl Print, t: &mut Ledger, step: Step) -> io::Result<()> {
    match step {
        Step::Enter(first, last, kind, handler) => enter(rt, t, first, last, kind, handler),
        Step::Look(kind, owner) => look(rt, t, kind, owner),
        Step::Count => count(rt, t),
    }
}

// Plays steps on a ledger with no entry.
fn play_all(rt: &impl Print, steps: &[Step]) -> io::Result<()> {
    let mut t = ledger::fresh();
    for step in steps {
        play(rt, &mut t, *step)?;
    }
    Ok(())
}

fn main(rt: HostRuntime) -> io::Result<()> {
    play_all(&rt, &STEPS)?;
    play_all(&rt, &WHOLE)
}
