// A call is judged: what it is answered and what is to be done for it, by reading alone.
#![tactic(auto)]

ghost use Rattle.std.specs.Prelude.{◌≡◌};
ghost use Rattle.mapping.specs.Lists.{held};
ghost use Rattle.rules.specs.Sizes.{normal};
ghost use Rattle.judgements.specs.Judge.{one_of, callers, handler_sight, sighted, by_handler, judged_by};
ghost use Rattle.judgements.specs.Read.{args_by};
ghost use Rattle.judging.specs.Laws.{request_of};

use architecture::architecture_call;
use board::board_call;
use cores::Powers;
use identifiers::{Identifier, Parts};
use judgements::{Caller, Judged, Request, read_args, refuse};
use ledger::Ledger;
use mapping::Lists;
use pages::Owners;
use rules::Reason;
use standard::standard_call;
use trusted::trusted_call;

// Root makes no calls.
pub fn may_call(world: u64) -> bool
    ensures { result ≡ one_of world callers }
{
    match world {
        rules::SECURE => true,
        rules::NORMAL => true,
        rules::REALM => true,
        _ => false,
    }
}

// What the handler makes of the call: a transfer by its row, or what else it knows.
fn by_handler(
    v: Caller,
    powers: &Powers,
    owners: &Owners,
    lists: &Lists,
    x: &[u64; 8],
    key: u32,
    h: u64,
) -> Judged
    ensures { result ≡ by_handler (handler_sight v powers.now owners.now (held lists.now v.world) (held lists.now normal)) (args_by key x.now) key h }
{
    match page_calls::row_of(x, h, key) {
        Some(t) => page_calls::transfer(t, v, owners, lists, x, key),
        None => match h {
            0 => architecture_call(x, key),
            1 => board_call(v, powers, owners, lists, x, key),
            2 => standard_call(v, powers, owners, x, key),
            3 => trusted_call(v, key),
            _ => refuse(Reason::Unserved),
        },
    }
}

// What a call reads of the caller's eight numbers: its identifier, and all its arguments.
pub fn read_call(x: &[u64; 8]) -> Request
    ensures { result ≡ request_of x.now }
{
    let id = Identifier::of(x[0]);
    let key = id.key();
    Request {
        parts: id.split(),
        key,
        args: read_args(key, x),
    }
}

// Judges a call of these parts and this key. Its arguments are read where it is known which of them it has.
pub fn judge(
    v: Caller,
    book: &Ledger,
    powers: &Powers,
    owners: &Owners,
    lists: &Lists,
    p: Parts,
    key: u32,
    x: &[u64; 8],
) -> Judged
    ensures { result ≡ judged_by (sighted book.now (handler_sight v powers.now owners.now (held lists.now v.world) (held lists.now normal))) p (args_by key x.now) key }
{
    if !may_call(v.world) {
        return refuse(Reason::Unserved);
    }
    if !p.admitted() {
        return refuse(Reason::Unserved);
    }
    let Some(h) = ledger::handler_of(book, p.fast, p.owner) else {
        return refuse(Reason::Unserved);
    };
    by_handler(v, powers, owners, lists, x, key, h)
}
