// Page transfers between Normal and the world that calls: one operation, over the rows of a small table.
#![tactic(auto)]

ghost use Rattle.std.specs.Prelude.{◌≡◌, Some};
ghost use Rattle.mapping.specs.Lists.{held};
ghost use Rattle.rules.specs.Sizes.{normal};
ghost use Rattle.judgements.specs.Judge.{one_of, row_of, may_transfer, moving, transferring};
ghost use Rattle.judgements.specs.Read.{args_by};
ghost use Rattle.page_calls.specs.Laws.{ends_of};

use judgements::{Answer, Caller, Deed, Judged, Transfer, grant, names, read_args, refuse};
use mapping::Lists;
use pages::Owners;
use rules::Reason;

// A row of the table of transfers.
fn row(both: bool, takes: bool, count: u64) -> Option<Transfer>
    ensures { result ≡ Some (record { both = both; takes = takes; count = count }) }
{
    Some(Transfer { both, takes, count })
}

// The table of transfers: the row of a call, by its handler and key. x2 is read by those that name a count.
pub fn row_of(x: &[u64; 8], h: u64, key: u32) -> Option<Transfer>
    ensures { result ≡ row_of (args_by key x.now) h key }
{
    if h == 2 {
        return match key {
            names::GRANULE_TO_REALM => row(false, true, 1),
            names::GRANULE_TO_NORMAL => row(false, false, 1),
            _ => None,
        };
    }
    if h == 1 {
        return match key {
            names::TAKE_PAGES => row(true, true, read_args(key, x).x2),
            names::GIVE_PAGES => row(true, false, read_args(key, x).x2),
            _ => None,
        };
    }
    None
}

// Realm may call every transfer, and Secure some.
fn may_transfer(t: Transfer, world: u64) -> bool
    ensures { result ≡ one_of world (may_transfer t) }
{
    match world {
        rules::SECURE => t.both,
        rules::REALM => true,
        _ => false,
    }
}

// What a transfer's verdict makes of the call.
fn moved(t: Result<u64, Reason>, count: u64, to: u64) -> Judged
    ensures { result ≡ moving t count to }
{
    match t {
        Ok(first) => grant(Answer::Done, Deed::Move { first, count, to }),
        Err(r) => refuse(r),
    }
}

// Who gives the pages of a transfer, and who takes them.
#[derive(Clone, Copy)]
struct Ends {
    from: u64,
    to: u64,
}

fn ends_of(t: Transfer, world: u64) -> Ends
    ensures { result ≡ ends_of t.takes world }
{
    if t.takes {
        return Ends {
            from: rules::NORMAL,
            to: world,
        };
    }
    Ends {
        from: world,
        to: rules::NORMAL,
    }
}

// Pages from x1 on, from Normal to the caller, or from the caller to Normal.
pub fn transfer(
    t: Transfer,
    v: Caller,
    owners: &Owners,
    lists: &Lists,
    x: &[u64; 8],
    key: u32,
) -> Judged
    ensures { result ≡ transferring t v owners.now (held lists.now v.world) (held lists.now normal) (args_by key x.now) }
{
    if !may_transfer(t, v.world) {
        return refuse(Reason::Unserved);
    }
    let a = read_args(key, x);
    let w = v.window;
    let n = t.count;
    let e = ends_of(t, v.world);
    moved(transfers::judge(w, owners, lists, e.from, a.x1, n), n, e.to)
}
