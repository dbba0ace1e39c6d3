// What each deed does.
#![tactic(auto)]

ghost use Rattle.std.specs.Prelude.{◌≡◌};
ghost use Rattle.registers.specs.Registers.{saving};
ghost use Rattle.rules.specs.Sizes.{normal};
ghost use Rattle.deeds.specs.Deeds.{Tables, on_tables, started_in, gone_off_in, handed_in, finished_in, returned, finish_numbers, carried_out};

use cores::{Powers, Turns};
use judgements::Deed;
use mapping::Lists;
use pages::Owners;
use registers::Saved;

// How many numbers Realm's finish returns, and Secure's.
const FROM_REALM: usize = 5;

const FROM_SECURE: usize = 4;

// The target becomes pending, with the address and the context that it is to find.
fn start(t: &mut Powers, target: u64, address: u64, context: u64)
    ensures { t.new ≡ started_in t.old target address context }
{
    let was = cores::power_of(t, target);
    cores::set_power(t, target, was.started(address, context));
}

// The calling core goes OFF.
fn go_off(t: &mut Powers, core: u64)
    ensures { t.new ≡ gone_off_in t.old core }
{
    let was = cores::power_of(t, core);
    cores::set_power(t, core, was.gone_off());
}

// The receiver runs.
fn hand_over(t: &mut Turns, core: u64, to: u64)
    ensures { t.new ≡ handed_in t.old core to }
{
    let was = cores::turn_of(t, core);
    cores::set_turn(t, core, was.handed(to));
}

// Normal runs.
fn finish(t: &mut Turns, core: u64)
    ensures { t.new ≡ finished_in t.old core }
{
    let was = cores::turn_of(t, core);
    cores::set_turn(t, core, was.finished());
}

// The receiver gets the caller's eight numbers as they stand, the hint of the identifier among them.
fn receive(t: &mut Saved, core: u64, to: u64, x: &[u64; 8])
    ensures { t.new ≡ saving t.old core to x.now }
{
    registers::save_eight(t, core, to, x);
}

// How many a finish returns to Normal, by the world that finishes.
fn returned(world: u64) -> usize
    ensures { result ≡ returned world }
{
    if world == rules::REALM {
        return FROM_REALM;
    }
    FROM_SECURE
}

// Normal gets the finisher's numbers from x1 on as its own from x0 on.
fn give_back(t: &mut Saved, core: u64, caller: u64, x: &[u64; 8])
    ensures { t.new ≡ saving t.old core normal (finish_numbers caller x.now) }
{
    let s: &[u64] = x;
    let end = 1 + returned(caller);
    registers::save(t, core, rules::NORMAL, &s[1..end]);
}

// Carries a deed out for the world that called, with its eight numbers.
// C lends each table by a pointer of its own (chiarumbeta_lent_call), so they come one by one.
pub fn do_deed(
    d: Deed,
    core: u64,
    caller: u64,
    x: &[u64; 8],
    owners: &mut Owners,
    saved: &mut Saved,
    powers: &mut Powers,
    turns: &mut Turns,
    lists: &mut Lists,
)
    ensures { on_tables owners saved powers turns lists (λ (t t' : Tables). t' ≡ carried_out d core caller x.now t) }
{
    match d {
        Deed::Nothing => {}
        Deed::Move { first, count, to } => pages::give(owners, first, count, to),
        Deed::Map(m) => mapping::hold(lists, caller, m),
        Deed::Unmap { virt, size } => mapping::release(lists, caller, virt, size),
        Deed::Start {
            core: target,
            start: address,
            context,
        } => start(powers, target, address, context),
        Deed::GoOff => go_off(powers, core),
        Deed::HandOver(to) => {
            receive(saved, core, to, x);
            hand_over(turns, core, to);
        }
        Deed::Finish => {
            give_back(saved, core, caller, x);
            finish(turns, core);
        }
    }
}
