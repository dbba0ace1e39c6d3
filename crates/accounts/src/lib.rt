// The sentence for each thing that is told in the end.
#![tactic(auto, using(crate::specs::Accounts::laws))]

ghost use Rattle.std.specs.Prelude.{◌≡◌};
ghost use Rattle.accounts.specs.Accounts.{core_told, range_told, held_told, said, page_end, page_told};

use cores::{Powers, Turns};
use inventory::{Ending, Thing};
use mapping::Lists;
use origins::Origins;
use pages::Owners;
use phrases::Sentence;
use rules::{MOST_MAPPINGS, MOST_PAGES};
use setup::Setup;
use words::names;

#[tactic(auto, unfolding(crate::specs::Accounts::core_told))]
fn core_said(powers: &Powers, turns: &Turns, core: u64) -> Sentence
    ensures { result ≡ core_told powers.now turns.now core }
{
    let power = cores::power_of(powers, core);
    let turn = cores::turn_of(turns, core);
    standing::core_said(core, power, turn.world)
}

#[tactic(auto, unfolding(crate::specs::Accounts::range_told))]
fn range_said(setup: &Setup, owners: &Owners, origins: &Origins, first: u64, end: u64) -> Sentence
    ensures { result ≡ range_told setup.now owners.now origins.now first end }
{
    let w = setup::window_of(setup);
    let owner = pages::owner_of(owners, first);
    let line = origins::line_of(origins, first);
    standing::range_said(w, first, end, owner, line)
}

#[tactic(auto, unfolding(crate::specs::Accounts::held_told))]
fn held_said(lists: &Lists, i: u64) -> Sentence
    ensures { result ≡ held_told lists.now i }
{
    let world = i / MOST_MAPPINGS;
    let m = places::place_of(lists, world, i % MOST_MAPPINGS);
    standing::mapping_said(world, m)
}

// What is said of a thing.
pub fn said(thing: Thing, ending: &Ending) -> Sentence
    ensures { result ≡ said ending.now.lines.now ending.now.setup.now ending.now.owners.now ending.now.origins.now ending.now.powers.now ending.now.turns.now ending.now.lists.now thing }
{
    match thing {
        Thing::Head => standing::head_said(origins::lines_in(ending.lines)),
        Thing::NoWindow => standing::word_said(names::NO_WINDOW),
        Thing::Core(core) => core_said(ending.powers, ending.turns, core),
        Thing::Range { first, end } => {
            range_said(ending.setup, ending.owners, ending.origins, first, end)
        }
        Thing::Held(i) => held_said(ending.lists, i),
        Thing::NoMappings => standing::word_said(names::NO_MAPPINGS),
        Thing::End => Sentence::blank(),
    }
}

// The page behind this one.
fn page_end(page: u64) -> u64
    ensures { result ≡ page_end page }
{
    if page < MOST_PAGES { page + 1 } else { page }
}

// The page that holds an address: whose it is, and by which line.
pub fn page_said(ending: &Ending, address: u64) -> Sentence
    ensures { result ≡ page_told ending.now.setup.now ending.now.owners.now ending.now.origins.now address }
{
    if !setup::is_ready(ending.setup) {
        return standing::word_said(names::NO_WINDOW);
    }
    let w = setup::window_of(ending.setup);
    let Some(page) = w.page_of(address) else {
        return standing::outside_said(address);
    };
    range_said(
        ending.setup,
        ending.owners,
        ending.origins,
        page,
        page_end(page),
    )
}
