// Hand-over and finish, and handler 3: the trusted system.
#![tactic(auto)]

ghost use Rattle.std.specs.Prelude.{◌≡◌};
ghost use Rattle.judgements.specs.Judge.{handing, finishing, trusted};

use judgements::{Answer, Caller, Deed, Judged, grant, names, refuse};
use rules::Reason;

// Normal hands the core over to another world.
pub fn hand_over(to: u64, v: Caller) -> Judged
    ensures { result ≡ handing to v }
{
    if v.world != rules::NORMAL {
        return refuse(Reason::Unserved);
    }
    grant(Answer::Silent, Deed::HandOver(to))
}

// The world that a core was handed to gives it back.
pub fn finish(from: u64, v: Caller) -> Judged
    ensures { result ≡ finishing from v }
{
    if v.world != from {
        return refuse(Reason::Unserved);
    }
    grant(Answer::Silent, Deed::Finish)
}

// A call that reaches handler 3: the finish by its one identifier, a hand-over by any other. Normal, which hands over, is told apart
// first, so that the two are two ways to the end.
pub fn trusted_call(v: Caller, key: u32) -> Judged
    ensures { result ≡ trusted v key }
{
    if v.world == rules::NORMAL {
        if key == names::SECURE_FINISH {
            return refuse(Reason::Unserved);
        }
        return hand_over(rules::SECURE, v);
    }
    if key == names::SECURE_FINISH {
        return finish(rules::SECURE, v);
    }
    refuse(Reason::Unserved)
}
