// Whether a run of pages may change its owner, and which run it is.
#![tactic(auto)]

ghost use Rattle.std.specs.Prelude.{◌≡◌};
ghost use Rattle.mapping.specs.Lists.{held};
ghost use Rattle.transfers.specs.Transfer.{transfer_verdict};

use mapping::Lists;
use pages::{Owners, Window};
use rules::Reason;

// Whether `count` pages from the address `start` on may leave the world that is to give them.
pub fn judge(
    w: Window,
    owners: &Owners,
    lists: &Lists,
    from: u64,
    start: u64,
    count: u64,
) -> Result<u64, Reason>
    ensures { result ≡ transfer_verdict w owners.now (held lists.now from) from start count }
{
    if count == 0 {
        return Err(Reason::NoPages);
    }
    let Some(first) = w.run_of(start, count) else {
        return Err(Reason::Invalid);
    };
    if !pages::all_owned(owners, first, count, from) {
        return Err(Reason::WrongOwner);
    }
    if mapping::meets_run(lists, from, start, count) {
        return Err(Reason::Mapped);
    }
    Ok(first)
}
