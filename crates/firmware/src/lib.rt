// The monitor for firmware in C: a thin function for each thing that a board does. Every table is lent by the caller, and passes as
// a plain pointer; what is an enum here is the paper's number there. include/chiarumbeta.h declares them.
#![tactic(auto)]

ghost use Rattle.std.specs.Prelude.{◌≡◌, length};
ghost use Rattle.pages.specs.Owners.{owner};
ghost use Rattle.registers.specs.Registers.{saved as numberSaved, shown_of};
ghost use Rattle.mapping.specs.Lists.{held};
ghost use Rattle.mapping.specs.Mapping.{lead_of};
ghost use Rattle.calls.specs.Step.{state, core_tables};
ghost use Rattle.setup.specs.Frames.{sited, entering, naming_in};
ghost use Rattle.calling.specs.Calling.{site_of};
ghost use Rattle.arriving.specs.Arriving.{arriving};
ghost use Rattle.frames.specs.Frames.{machine, first};
ghost use Rattle.showing.specs.Showing.{shown_on};
ghost use Rattle.firmware.specs.Numbers.{in_byte, refusal, listed, telling, call_told, led_to};

use calls::Made;
use cores::{Powers, Turns};
use judgements::Answer;
use ledger::Ledger;
use mapping::{Lead, Lists};
use pages::{Named, Owners};
use registers::Saved;
use rules::Reason;
use setup::Setup;

// What is told of a call: the world that then runs or 255, x0 to x3, who called, and the refusal.
pub type Told = [u64; 7];

// Where each of them stands.
const TOLD_WORLD: usize = 0;

const TOLD_X0: usize = 1;

const TOLD_X1: usize = 2;

const TOLD_X2: usize = 3;

const TOLD_X3: usize = 4;

const TOLD_CALLER: usize = 5;

const TOLD_REFUSED: usize = 6;

// Where an address leads: physical address and attributes.
pub type Leading = [u64; 2];

// Every table as it is before the first frame.
#[unsafe(no_mangle)]
pub extern "C" fn chiarumbeta_lent_fresh(
    setup: &mut Setup,
    named: &mut Named,
    book: &mut Ledger,
    owners: &mut Owners,
    saved: &mut Saved,
    powers: &mut Powers,
    turns: &mut Turns,
    lists: &mut Lists,
)
    ensures { machine setup.new named.new book.new owners.new saved.new powers.new turns.new lists.new ≡ first }
{
    *setup = setup::fresh();
    *named = pages::fresh_named();
    *book = ledger::fresh();
    *owners = pages::fresh_owners();
    *saved = registers::fresh();
    *powers = cores::fresh_powers();
    *turns = cores::fresh_turns();
    *lists = mapping::fresh();
}

// Set-up, first step: the site.
#[unsafe(no_mangle)]
pub extern "C" fn chiarumbeta_lent_fix_site(
    setup: &mut Setup,
    owners: &mut Owners,
    base: u64,
    pages: u64,
    cores: u64,
) -> u64
    ensures { ((setup.new, owners.new), result) ≡ in_byte (sited setup.old owners.old base pages cores) }
{
    let status = setup::fix_site(setup, owners, base, pages, cores);
    parsing::byte_of(status)
}

// Set-up: an entry of the ledger.
#[unsafe(no_mangle)]
pub extern "C" fn chiarumbeta_lent_enter_pairs(
    setup: &Setup,
    book: &mut Ledger,
    lowest: u64,
    last: u64,
    kind: u64,
    handler: u64,
) -> u64
    ensures { (book.new, result) ≡ in_byte (entering setup.now book.old lowest last kind handler) }
{
    let status = setup::enter_pairs(setup, book, lowest, last, kind, handler);
    parsing::byte_of(status)
}

// Set-up: pages are named, and given to their owner.
#[unsafe(no_mangle)]
pub extern "C" fn chiarumbeta_lent_name_pages(
    setup: &Setup,
    owners: &mut Owners,
    named: &mut Named,
    lowest: u64,
    count: u64,
    to: u64,
) -> u64
    ensures { ((owners.new, named.new), result) ≡ in_byte (naming_in setup.now owners.old named.old lowest count to) }
{
    let status = setup::name_pages(setup, owners, named, lowest, count, to);
    parsing::byte_of(status)
}

// n where a call is refused with -n, else 0.
fn refusal_of(a: Answer) -> u64
    ensures { result ≡ refusal a }
{
    let Answer::No(r) = a else {
        return 0;
    };
    rules::minus_of(r)
}

// That there is room for seven numbers.
fn see_room(told: &Told) -> u64
    ensures { length told.now ≡ 7 }
{
    let s: &[u64] = told;
    s[0]
}

// What is told where the numbers of a world are shown. Each is read and written by itself: two that are read at once, of which
// the call has just written one, keep a processor waiting.
fn tell_of(
    told: &mut Told,
    made: Made,
    refused: u64,
    core: u64,
    runs: u64,
    world: u64,
    saved: &Saved,
)
    ensures { told.new ≡ listed runs (shown_of saved.now core world) made.caller refused }
{
    see_room(told);
    told[TOLD_WORLD] = runs;
    told[TOLD_X0] = registers::number(saved, core, world, 0);
    told[TOLD_X1] = registers::number(saved, core, world, 1);
    told[TOLD_X2] = registers::number(saved, core, world, 2);
    told[TOLD_X3] = registers::number(saved, core, world, 3);
    told[TOLD_CALLER] = made.caller;
    told[TOLD_REFUSED] = refused;
}

// What is told of an accepted call, by the world that then runs; of a core that went OFF Normal's numbers are shown. The refusal is
// worked out first, where the answer is still known.
fn tell(told: &mut Told, made: Made, core: u64, saved: &Saved, powers: &Powers, turns: &Turns)
    ensures { told.new ≡ telling told.old made (shown_on core saved.now powers.now turns.now) }
{
    let answer = made.answer;
    let refused = refusal_of(answer);
    let power = cores::power_of(powers, core);
    if power.is_on() {
        let turn = cores::turn_of(turns, core);
        let world = turn.world;
        tell_of(told, made, refused, core, world, world, saved);
        return;
    }
    tell_of(
        told,
        made,
        refused,
        core,
        showing::NO_WORLD,
        rules::NORMAL,
        saved,
    );
}

// A call by the world that runs on a core, with its eight numbers.
#[unsafe(no_mangle)]
pub extern "C" fn chiarumbeta_lent_call(
    setup: &mut Setup,
    core: u64,
    x: &[u64; 8],
    told: &mut Told,
    book: &Ledger,
    owners: &mut Owners,
    saved: &mut Saved,
    powers: &mut Powers,
    turns: &mut Turns,
    lists: &mut Lists,
) -> u64
    ensures { (((setup.new, state (site_of setup.old) book.now owners.new saved.new powers.new turns.new lists.new), told.new), result) ≡ call_told setup.old (state (site_of setup.old) book.now owners.old saved.old powers.old turns.old lists.old) told.old core x.now }
{
    let tried = calling::try_call(setup, core, x, book, owners, saved, powers, turns, lists);
    match tried {
        Err(why) => parsing::byte_of(why),
        Ok(made) => {
            tell(told, made, core, saved, powers, turns);
            0
        }
    }
}

// A pending core arrives.
#[unsafe(no_mangle)]
pub extern "C" fn chiarumbeta_lent_arrive(
    setup: &Setup,
    core: u64,
    saved: &mut Saved,
    powers: &mut Powers,
    turns: &mut Turns,
) -> u64
    ensures { (core_tables saved.new powers.new turns.new, result) ≡ in_byte (arriving setup.now (core_tables saved.old powers.old turns.old) core) }
{
    let status = arriving::make_arrival(setup, core, saved, powers, turns);
    parsing::byte_of(status)
}

// Where an address of a world leads.
#[unsafe(no_mangle)]
pub extern "C" fn chiarumbeta_lent_where(
    lists: &Lists,
    world: u64,
    address: u64,
    leading: &mut Leading,
) -> u64
    ensures { (leading.new, result) ≡ led_to leading.old (lead_of (held lists.now world) address) }
{
    let lead = mapping::lead_of(lists, world, address);
    match lead {
        Some(Lead { phys, attr }) => {
            *leading = [phys, attr];
            0
        }
        None => rules::minus_of(Reason::Nowhere),
    }
}

// The owner of a page of the window.
#[unsafe(no_mangle)]
pub extern "C" fn chiarumbeta_lent_owner(owners: &Owners, page: u64) -> u64
    ensures { result ≡ owner owners.now page }
{
    pages::owner_of(owners, page)
}

// One of the nine numbers that are saved for a core and world.
#[unsafe(no_mangle)]
pub extern "C" fn chiarumbeta_lent_number(saved: &Saved, core: u64, world: u64, i: u64) -> u64
    ensures { result ≡ numberSaved saved.now core world i }
{
    registers::number(saved, core, world, i)
}
