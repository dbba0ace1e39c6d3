// The whole machine, and any frame: one of set-up, a call, an arrival, or nothing where the line is no frame.
#![tactic(auto)]

ghost use Rattle.std.specs.Prelude.{◌≡◌};
ghost use Rattle.frames.specs.Frames.{Machine, on_machine, first, framed};

use cores::{Powers, Turns};
use ledger::Ledger;
use mapping::Lists;
use pages::{Named, Owners};
use parsing::Frame;
use registers::Saved;
use setup::Setup;
use showing::Reply;

// Everything there is: set-up, which pages were named, and what the calls work on.
#[derive(Drop)]
pub struct Machine {
    pub setup: Setup,
    pub named: Named,
    pub ledger: Ledger,
    pub owners: Owners,
    pub saved: Saved,
    pub powers: Powers,
    pub turns: Turns,
    pub lists: Lists,
}

impl Machine {
    // Before the first frame.
    pub fn fresh() -> Machine
        ensures { result ≡ first }
    {
        Machine {
            setup: setup::fresh(),
            named: pages::fresh_named(),
            ledger: ledger::fresh(),
            owners: pages::fresh_owners(),
            saved: registers::fresh(),
            powers: cores::fresh_powers(),
            turns: cores::fresh_turns(),
            lists: mapping::fresh(),
        }
    }

    // Any frame, with the eight numbers that stand beside it.
    pub fn step(&mut self, frame: Frame, x: &[u64; 8]) -> Reply
        ensures { (self.new, result) ≡ framed self.old frame x.now }
    {
        let Machine {
            setup,
            named,
            ledger,
            owners,
            saved,
            powers,
            turns,
            lists,
        } = self;
        step(
            frame, x, setup, named, ledger, owners, saved, powers, turns, lists,
        )
    }
}

// The same over tables that are lent one by one: C lends each by a pointer of its own (chiarumbeta_lent_feed).
pub fn step(
    frame: Frame,
    x: &[u64; 8],
    setup: &mut Setup,
    named: &mut Named,
    book: &mut Ledger,
    owners: &mut Owners,
    saved: &mut Saved,
    powers: &mut Powers,
    turns: &mut Turns,
    lists: &mut Lists,
) -> Reply
    ensures { on_machine setup named book owners saved powers turns lists (λ (m m' : Machine). (m', result) ≡ framed m frame x.now) }
{
    match frame {
        Frame::Site { base, pages, cores } => {
            Reply::Told(setup::fix_site(setup, owners, base, pages, cores))
        }
        Frame::Entry {
            first,
            last,
            kind,
            handler,
        } => Reply::Told(setup::enter_pairs(setup, book, first, last, kind, handler)),
        Frame::Name {
            first,
            count,
            owner,
        } => Reply::Told(setup::name_pages(setup, owners, named, first, count, owner)),
        Frame::Call { core } => {
            calling::make_call(setup, core, x, book, owners, saved, powers, turns, lists)
        }
        Frame::Arrival { core } => {
            Reply::Told(arriving::make_arrival(setup, core, saved, powers, turns))
        }
        Frame::Refused(why) => Reply::Told(why),
    }
}
