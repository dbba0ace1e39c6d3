// The service ledger: the accepted entries, oldest first, and which handler takes the calls of each pair of type and owner.
#![tactic(auto)]

ghost use Rattle.std.specs.Prelude.{◌≡◌, ◌+◌, ◌≤◌, ◌<◌};
ghost use Rattle.tools.specs.Search.{any};
ghost use Rattle.ledger.specs.Places.{meant};
ghost use Rattle.ledger.specs.Ledger.{empty, handler, used, taken, recorded, Ranged, entered};

use rules::{Fault, LAST_HANDLER, LAST_KIND, LAST_OWNER};

// How many owners and handlers there are, and pairs of type and owner.
const OWNERS: u64 = LAST_OWNER + 1;

const HANDLERS: u64 = LAST_HANDLER + 1;

const PAIRS: u64 = (LAST_KIND + 1) * OWNERS;

// Every pair may have an entry of its own.
const PLACES: u64 = PAIRS;

// Two bytes an entry, 0 for a place that is free.
pub type Ledger = [u16; PLACES as usize];

// Where the parts of an entry stand: the first owner in bits 5 to 0, the handler from bit 6 on, the last owner from bit 8, the
// type in bit 14. Bit 15 is set. So the type and the last owner together are the number of the last pair, yielding ones first.
const NUMBER: u64 = 1 << 6;

const LAST: u64 = 1 << 8;

const KIND: u64 = 1 << 14;

const IN_USE: u64 = 1 << 15;

// A ledger with no entry.
pub fn fresh() -> Ledger
    ensures { result ≡ empty }
{
    [0; PLACES as usize]
}

// Whether an entry names a pair: that is not behind the entry's last, and not before its first. Where it is behind the last, the
// whole entry is a smaller number than any that ends with the pair. The type and the first owner are compared where they stand.
#[tactic(auto, using(crate::specs::Places::meanings))]
fn is_meant(e: u64, kind: u64, owner: u64) -> bool
    requires fact_1 { kind ≤ 1 }
    requires fact_2 { owner ≤ 63 }
    requires fact_3 { 32768 ≤ e }
    requires fact_4 { e < 65536 }
    ensures { result ≡ meant e kind owner }
{
    let pair = kind * OWNERS + owner;
    if e < IN_USE + pair * LAST {
        return false;
    }
    e / KIND % 2 * KIND + e % OWNERS <= kind * KIND + owner
}

// The lookup, with numbers as wide as an entry's: the walk ends at the first entry that names the pair, or at a free place.
#[tactic(auto, using(crate::specs::Places::walking))]
fn look(t: &Ledger, kind: u64, owner: u64) -> Option<u64>
    ensures { result ≡ handler t.now kind owner }
{
    if LAST_KIND < kind {
        return None;
    }
    if LAST_OWNER < owner {
        return None;
    }
    for place in t {
        let e = u64::from(*place);
        if e < IN_USE {
            return None;
        }
        if is_meant(e, kind, owner) {
            return Some(e / NUMBER % HANDLERS);
        }
    }
    None
}

// The handler of a pair, for any type and owner.
pub fn handler_of(t: &Ledger, kind: u32, owner: u32) -> Option<u64>
    ensures { result ≡ handler t.now kind owner }
{
    look(t, u64::from(kind), u64::from(owner))
}

// How many places are in use: those before the first free one.
#[tactic(auto, using(crate::specs::Places::counting))]
pub fn used(t: &Ledger) -> u64
    ensures { result ≡ used t.now }
{
    for at in 0..PLACES {
        if u64::from(t[at as usize]) < IN_USE {
            return at;
        }
    }
    PLACES
}

// Whether the pair has a handler.
#[tactic(auto, using(crate::specs::Ledger::is_taken, crate::specs::Ledger::is_free))]
fn is_taken(t: &Ledger, kind: u64, owner: u64) -> bool
    ensures { result ≡ taken t.now kind owner }
{
    let Some(_) = look(t, kind, owner) else {
        return false;
    };
    true
}

// Whether one of the owners from `first` on has a handler.
fn any_taken(t: &Ledger, kind: u64, first: u64, count: u64) -> bool
    requires { first + count ≤ 64 }
    ensures { result ≡ any (taken t.now kind) first count }
{
    (first..first + count).any(|owner| is_taken(t, kind, owner))
}

// An entry comes to the first free place, and the place behind it is made free; where all are taken nothing changes.
#[tactic(auto, using(crate::specs::Places::recording))]
fn record(t: &mut Ledger, first: u64, last: u64, kind: u64, number: u64)
    requires { Ranged first last kind number }
    ensures { t.new ≡ recorded t.old first last kind number }
{
    let end = used(t);
    if PLACES <= end {
        return;
    }
    let e = IN_USE + KIND * kind + LAST * last + NUMBER * number + first;
    t[end as usize] = e as u16;
    if PLACES <= end + 1 {
        return;
    }
    t[(end + 1) as usize] = 0;
}

// An entry is made for all its owners or for none.
pub fn enter(t: &mut Ledger, first: u64, last: u64, kind: u64, number: u64) -> Result<(), Fault>
    ensures { (result, t.new) ≡ entered t.old first last kind number }
{
    if last < first {
        return Err(Fault::OutOfRange);
    }
    if LAST_OWNER < last {
        return Err(Fault::OutOfRange);
    }
    if LAST_KIND < kind {
        return Err(Fault::OutOfRange);
    }
    if LAST_HANDLER < number {
        return Err(Fault::OutOfRange);
    }
    let count = last - first + 1;
    if any_taken(t, kind, first, count) {
        return Err(Fault::Taken);
    }
    record(t, first, last, kind, number);
    Ok(())
}
