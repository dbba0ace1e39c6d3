// Handler 0: the version, and which of these calls there are.
#![tactic(auto)]

ghost use Rattle.std.specs.Prelude.{◌≡◌};
ghost use Rattle.judgements.specs.Judge.{affirmed, one_of, architecture_calls, asked, featuring, architecture};
ghost use Rattle.judgements.specs.Read.{args_by};

use identifiers::Identifier;
use judgements::names::{FEATURES, VERSION};
use judgements::{Answer, Args, Deed, Judged, grant, read_args, refuse};
use rules::Reason;

// Answers a question whether a call is known: 0, or -1.
pub fn affirm(is: bool) -> Judged
    ensures { result ≡ affirmed is }
{
    if is {
        return grant(Answer::Done, Deed::Nothing);
    }
    refuse(Reason::Unserved)
}

// The key of the identifier that a call asks about.
pub fn asked_key(a: Args) -> u32
    ensures { result ≡ asked a }
{
    Identifier::of(a.x1).key()
}

// The architecture's own two calls.
fn is_known(key: u32) -> bool
    ensures { result ≡ one_of key architecture_calls }
{
    match key {
        VERSION => true,
        FEATURES => true,
        _ => false,
    }
}

// Whether a call of the architecture is known.
fn known_features(a: Args) -> Judged
    ensures { result ≡ featuring a }
{
    affirm(is_known(asked_key(a)))
}

// A call that reaches handler 0. Any world may make it.
pub fn architecture_call(x: &[u64; 8], key: u32) -> Judged
    ensures { result ≡ architecture (args_by key x.now) key }
{
    match key {
        VERSION => grant(Answer::Version, Deed::Nothing),
        FEATURES => known_features(read_args(key, x)),
        _ => refuse(Reason::Unserved),
    }
}
