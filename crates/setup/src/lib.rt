// Set-up: the site is fixed once, and until the first call the ledger is entered and pages are named.
#![tactic(auto)]

ghost use Rattle.std.specs.Prelude.{◌≡◌};
ghost use Rattle.setup.specs.Table.{unset, ready, ended, window, cores, fixed, over};
ghost use Rattle.setup.specs.Frames.{fits, sited, untimely, entered_status, entering, naming_in, core_verdict};

use ledger::Ledger;
use pages::{Named, Owners, Window};
use parsing::Status;
use rules::{Fault, MOST_CORES, ROOT};

// Whether a site was accepted, whether a call has ended set-up, and the site: base and pages of the window, and the cores.
// Five numbers and no struct, since a caller in C lends them.
pub type Setup = [u64; 5];

// Set-up before the first frame.
pub fn fresh() -> Setup
    ensures { result ≡ unset }
{
    [0; 5]
}

// Whether a site was accepted.
pub fn is_ready(setup: &Setup) -> bool
    ensures { result ≡ ready setup.now }
{
    setup[0] == 1
}

// Whether a call has ended set-up.
fn is_ended(setup: &Setup) -> bool
    ensures { result ≡ ended setup.now }
{
    setup[1] == 1
}

// The window of the site.
pub fn window_of(setup: &Setup) -> Window
    ensures { result ≡ window setup.now }
{
    Window {
        base: setup[2],
        pages: setup[3],
    }
}

// How many cores the site has.
pub fn cores_of(setup: &Setup) -> u64
    ensures { result ≡ cores setup.now }
{
    setup[4]
}

// This is the site.
fn fix(setup: &mut Setup, base: u64, pages: u64, cores: u64)
    ensures { setup.new ≡ fixed setup.old base pages cores }
{
    let ended = setup[1];
    *setup = [1, ended, base, pages, cores];
}

// Set-up has ended.
pub fn end(setup: &mut Setup)
    ensures { setup.new ≡ over setup.old }
{
    let [ready, _, base, pages, cores] = *setup;
    *setup = [ready, 1, base, pages, cores];
}

// Whether the values of a site are in their ranges.
#[tactic(auto, unfolding(crate::specs::Frames::fits))]
fn is_fit(window: Window, cores: u64) -> bool
    ensures { result ≡ fits window cores }
{
    window.acceptable() && 1 <= cores && cores <= MOST_CORES
}

// Frame 11: the site is fixed, once, and each page of its window gets Root's mark.
pub fn fix_site(setup: &mut Setup, owners: &mut Owners, base: u64, pages: u64, cores: u64) -> Status
    ensures { ((setup.new, owners.new), result) ≡ sited setup.old owners.old base pages cores }
{
    if is_ready(setup) {
        return Status::Misplaced;
    }
    let window = Window { base, pages };
    if is_fit(window, cores) {
        fix(setup, base, pages, cores);
        pages::give(owners, 0, pages, ROOT);
        return Status::Accepted;
    }
    Status::OutOfRange
}

// Whether it is too early or too late for a ledger entry or the naming of pages.
#[tactic(auto, unfolding(crate::specs::Frames::untimely))]
fn is_untimely(setup: &Setup) -> bool
    ensures { result ≡ untimely setup.now }
{
    !is_ready(setup) || is_ended(setup)
}

// How the ledger's answer and that of the pages are told.
fn entered_status(e: Result<(), Fault>) -> Status
    ensures { result ≡ entered_status e }
{
    match e {
        Ok(()) => Status::Accepted,
        Err(Fault::OutOfRange) => Status::OutOfRange,
        Err(Fault::Taken) => Status::Clash,
    }
}

// Frame 10: an entry of the ledger.
pub fn enter_pairs(
    setup: &Setup,
    book: &mut Ledger,
    first: u64,
    last: u64,
    kind: u64,
    number: u64,
) -> Status
    ensures { (book.new, result) ≡ entering setup.now book.old first last kind number }
{
    if is_untimely(setup) {
        return Status::Misplaced;
    }
    entered_status(ledger::enter(book, first, last, kind, number))
}

// Frame 12: pages are named, and given to their owner.
pub fn name_pages(
    setup: &Setup,
    owners: &mut Owners,
    named: &mut Named,
    first: u64,
    count: u64,
    to: u64,
) -> Status
    ensures { ((owners.new, named.new), result) ≡ naming_in setup.now owners.old named.old first count to }
{
    if is_untimely(setup) {
        return Status::Misplaced;
    }
    let window = window_of(setup);
    entered_status(pages::name_run(owners, named, window.pages, first, count, to))
}

// 20 and 21: whether the frame may come, there is such a core, and it is in the state that the frame asks for.
pub fn judge_core(setup: &Setup, core: u64, fits: bool) -> Result<(), Status>
    ensures { result ≡ core_verdict setup.now core fits }
{
    if is_ready(setup) {
        if cores_of(setup) <= core {
            return Err(Status::OutOfRange);
        }
        if fits {
            return Ok(());
        }
        return Err(Status::Clash);
    }
    Err(Status::Misplaced)
}
