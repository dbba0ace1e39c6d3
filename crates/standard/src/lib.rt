// Handler 2: core power, and Realm's hand-over and finish.
#![tactic(auto)]

ghost use Rattle.std.specs.Prelude.{◌≡◌};
ghost use Rattle.judgements.specs.Judge.{handing_to_realm, realm_call, standard};
ghost use Rattle.judgements.specs.Read.{args_by};

use cores::Powers;
use judgements::{Caller, Judged, names, read_args, refuse};
use pages::Owners;
use power::{go_off, power_features, power_version, start_core, tell_state};
use rules::Reason;
use trusted::{finish, hand_over};

// Realm's range of hand-over.
fn hand_to_realm(v: Caller, key: u32) -> Judged
    ensures { result ≡ handing_to_realm v key }
{
    if key < names::REALM_FIRST {
        return refuse(Reason::Unserved);
    }
    if names::REALM_LAST < key {
        return refuse(Reason::Unserved);
    }
    hand_over(rules::REALM, v)
}

// Realm's finish and hand-over.
fn realm_call(v: Caller, key: u32) -> Judged
    ensures { result ≡ realm_call v key }
{
    match key {
        names::REALM_FINISH => finish(rules::REALM, v),
        _ => hand_to_realm(v, key),
    }
}

// A call that reaches handler 2.
pub fn standard_call(v: Caller, powers: &Powers, owners: &Owners, x: &[u64; 8], key: u32) -> Judged
    ensures { result ≡ standard v powers.now owners.now (args_by key x.now) key }
{
    match key {
        names::POWER_VERSION => power_version(v),
        names::CORE_OFF => go_off(v),
        names::CORE_START => start_core(v, powers, owners, read_args(key, x)),
        names::CORE_START_WIDE => start_core(v, powers, owners, read_args(key, x)),
        names::CORE_STATE => tell_state(v, powers, read_args(key, x)),
        names::CORE_STATE_WIDE => tell_state(v, powers, read_args(key, x)),
        names::POWER_FEATURES => power_features(v, read_args(key, x)),
        _ => realm_call(v, key),
    }
}
