// Handler 1: the board's own calls.
#![tactic(auto)]

ghost use Rattle.std.specs.Prelude.{◌≡◌};
ghost use Rattle.mapping.specs.Lists.{held};
ghost use Rattle.pages.specs.Window.{page_of};
ghost use Rattle.cores.specs.Cores.{on_count};
ghost use Rattle.mapping.specs.Mapping.{map_verdict, lead_of};
ghost use Rattle.rules.specs.Sizes.{normal};
ghost use Rattle.judgements.specs.Judge.{granted, handler_sight, wanted, owning, mapping as mappingBy, unmapping, leading, board};
ghost use Rattle.judgements.specs.Read.{args_by};

use cores::Powers;
use judgements::{Answer, Args, Caller, Deed, Judged, grant, names, read_args, refuse};
use mapping::{Grant, Lead, Lists, Mapping};
use pages::Owners;
use rules::Reason;

// Whether an address lies in a page of the caller's.
fn own_page(v: Caller, owners: &Owners, a: Args) -> Judged
    ensures { result ≡ owning owners.now (page_of v.window a.x1) v.world }
{
    let w = v.window;
    let Some(page) = w.page_of(a.x1) else {
        return refuse(Reason::Invalid);
    };
    grant(
        Answer::Owns(pages::owner_of(owners, page) == v.world),
        Deed::Nothing,
    )
}

// Maps what is wanted.
fn map_wanted(v: Caller, owners: &Owners, lists: &Lists, m: Mapping) -> Judged
    ensures { result ≡ mappingBy (map_verdict (held lists.now v.world) owners.now v.window v.world m) m }
{
    let w = v.window;
    match mapping::judge_map(lists, owners, w, v.world, m) {
        Ok(Grant::Hold) => grant(Answer::Done, Deed::Map(m)),
        Ok(Grant::Nothing) => grant(Answer::Done, Deed::Nothing),
        Err(r) => refuse(r),
    }
}

// Maps what the call wants.
fn map_pages(v: Caller, owners: &Owners, lists: &Lists, a: Args) -> Judged
    ensures { result ≡ mappingBy (map_verdict (held lists.now v.world) owners.now v.window v.world (wanted a)) (wanted a) }
{
    map_wanted(v, owners, lists, a.wanted())
}

// Unmaps what the caller holds with exactly this start and size.
fn unmap_pages(v: Caller, lists: &Lists, a: Args) -> Judged
    ensures { result ≡ unmapping (held lists.now v.world) a }
{
    if !mapping::has(lists, v.world, a.x1, a.x2) {
        return refuse(Reason::NoMapping);
    }
    grant(
        Answer::Done,
        Deed::Unmap {
            virt: a.x1,
            size: a.x2,
        },
    )
}

// Where an address of the caller leads.
fn where_leads(v: Caller, lists: &Lists, a: Args) -> Judged
    ensures { result ≡ leading (lead_of (held lists.now v.world) a.x1) }
{
    match mapping::lead_of(lists, v.world, a.x1) {
        Some(Lead { phys, attr }) => grant(Answer::Leads { phys, attr }, Deed::Nothing),
        None => refuse(Reason::Nowhere),
    }
}

// How many cores are ON.
fn count_on(powers: &Powers) -> Judged
    ensures { result ≡ granted (Answer.Count (on_count powers.now)) Deed.Nothing }
{
    grant(Answer::Count(cores::on_count(powers)), Deed::Nothing)
}

// A call that reaches handler 1.
pub fn board_call(
    v: Caller,
    powers: &Powers,
    owners: &Owners,
    lists: &Lists,
    x: &[u64; 8],
    key: u32,
) -> Judged
    ensures { result ≡ board (handler_sight v powers.now owners.now (held lists.now v.world) (held lists.now normal)) (args_by key x.now) key }
{
    match key {
        names::OWNS_PAGE => own_page(v, owners, read_args(key, x)),
        names::MAP_PAGES => map_pages(v, owners, lists, read_args(key, x)),
        names::UNMAP_PAGES => unmap_pages(v, lists, read_args(key, x)),
        names::WHERE_LEADS => where_leads(v, lists, read_args(key, x)),
        names::COUNT_ON => count_on(powers),
        _ => refuse(Reason::Unserved),
    }
}
