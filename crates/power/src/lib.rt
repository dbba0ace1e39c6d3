// Core power: start, state, off, and what of it there is.
#![tactic(auto)]

ghost use Rattle.std.specs.Prelude.{◌≡◌};
ghost use Rattle.cores.specs.Power.{is_on, is_pending};
ghost use Rattle.cores.specs.Cores.{power};
ghost use Rattle.judgements.specs.Judge.{granted, affirmed, asked, good_start, starting, state_of, telling_state, going_off, versioning, one_of, power_calls, power_featuring};

use architecture::{affirm, asked_key};
use cores::Powers;
use judgements::{Answer, Args, Caller, Deed, Judged, grant, names, refuse};
use pages::{Owners, Window};
use rules::Reason;

// Whether a core may start there: a multiple of 4 in a page of Normal's.
fn good_start(w: Window, owners: &Owners, address: u64) -> bool
    ensures { result ≡ good_start w owners.now address }
{
    if address % 4 != 0 {
        return false;
    }
    let Some(page) = w.page_of(address) else {
        return false;
    };
    pages::owner_of(owners, page) == rules::NORMAL
}

fn on_core(powers: &Powers, core: u64) -> bool
    ensures { result ≡ is_on (power powers.now core) }
{
    cores::power_of(powers, core).is_on()
}

fn pending_core(powers: &Powers, core: u64) -> bool
    ensures { result ≡ is_pending (power powers.now core) }
{
    cores::power_of(powers, core).is_pending()
}

// Starts core x1 at x2 with context x3.
pub fn start_core(v: Caller, powers: &Powers, owners: &Owners, a: Args) -> Judged
    ensures { result ≡ starting v powers.now owners.now a }
{
    if v.world != rules::NORMAL {
        return refuse(Reason::Unserved);
    }
    let core = a.x1;
    if v.cores <= core {
        return refuse(Reason::Invalid);
    }
    let start = a.x2;
    let w = v.window;
    if !good_start(w, owners, start) {
        return refuse(Reason::BadAddress);
    }
    if on_core(powers, core) {
        return refuse(Reason::AlreadyOn);
    }
    if pending_core(powers, core) {
        return refuse(Reason::AlreadyPending);
    }
    let context = a.x3;
    grant(
        Answer::Done,
        Deed::Start {
            core,
            start,
            context,
        },
    )
}

// The state of a core in the paper's three words.
fn state_of(powers: &Powers, core: u64) -> Answer
    ensures { result ≡ state_of (power powers.now core) }
{
    if on_core(powers, core) {
        return Answer::On;
    }
    if pending_core(powers, core) {
        return Answer::Pending;
    }
    Answer::Off
}

fn stated(powers: &Powers, core: u64) -> Judged
    ensures { result ≡ granted (state_of (power powers.now core)) Deed.Nothing }
{
    grant(state_of(powers, core), Deed::Nothing)
}

// The state of core x1. Level x2 can only be 0, the core itself.
pub fn tell_state(v: Caller, powers: &Powers, a: Args) -> Judged
    ensures { result ≡ telling_state v powers.now a }
{
    if v.world != rules::NORMAL {
        return refuse(Reason::Unserved);
    }
    let core = a.x1;
    if v.cores <= core {
        return refuse(Reason::Invalid);
    }
    let level = a.x2;
    if level != 0 {
        return refuse(Reason::Invalid);
    }
    stated(powers, core)
}

// The calling core goes OFF; its registers stay.
pub fn go_off(v: Caller) -> Judged
    ensures { result ≡ going_off v }
{
    if v.world != rules::NORMAL {
        return refuse(Reason::Unserved);
    }
    grant(Answer::Silent, Deed::GoOff)
}

// The version of core power.
pub fn power_version(v: Caller) -> Judged
    ensures { result ≡ versioning v }
{
    if v.world != rules::NORMAL {
        return refuse(Reason::Unserved);
    }
    grant(Answer::PowerVersion, Deed::Nothing)
}

// The calls of core power, and the version of the architecture.
fn is_known(key: u32) -> bool
    ensures { result ≡ one_of key power_calls }
{
    match key {
        names::POWER_VERSION => true,
        names::CORE_OFF => true,
        names::CORE_START => true,
        names::CORE_START_WIDE => true,
        names::CORE_STATE => true,
        names::CORE_STATE_WIDE => true,
        names::POWER_FEATURES => true,
        names::VERSION => true,
        _ => false,
    }
}

fn known_power(a: Args) -> Judged
    ensures { result ≡ affirmed (one_of (asked a) power_calls) }
{
    affirm(is_known(asked_key(a)))
}

// Whether a call of core power is known.
pub fn power_features(v: Caller, a: Args) -> Judged
    ensures { result ≡ power_featuring v a }
{
    if v.world != rules::NORMAL {
        return refuse(Reason::Unserved);
    }
    known_power(a)
}
