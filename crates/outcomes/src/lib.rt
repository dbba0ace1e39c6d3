// What comes of a frame, as values: the status that it is told, or who called and what was answered.
#![tactic(auto)]

ghost use Rattle.std.specs.Prelude.{◌≡◌};
ghost use Rattle.outcomes.specs.Outcomes.{tried, taken};

use calls::Made;
use frames::Machine;
use parsing::{Frame, Status};

// What comes of a frame.
#[derive(Clone, Copy)]
pub enum Came {
    // any frame but an accepted call: 00 where it was accepted
    Told(Status),
    // an accepted call
    Called(Made),
}

// What comes of a call that was tried.
fn of_call(t: Result<Made, Status>) -> Came
    ensures { result ≡ tried t }
{
    match t {
        Err(why) => Came::Told(why),
        Ok(made) => Came::Called(made),
    }
}

// One frame, with the eight numbers that stand beside it.
pub fn take_frame(frame: Frame, x: &[u64; 8], machine: &mut Machine) -> Came
    ensures { (machine.new, result) ≡ taken machine.old frame x.now }
{
    let Machine {
        setup,
        named,
        ledger,
        owners,
        saved,
        powers,
        turns,
        lists,
    } = machine;
    match frame {
        Frame::Site { base, pages, cores } => {
            Came::Told(setup::fix_site(setup, owners, base, pages, cores))
        }
        Frame::Entry {
            first,
            last,
            kind,
            handler,
        } => Came::Told(setup::enter_pairs(setup, ledger, first, last, kind, handler)),
        Frame::Name {
            first,
            count,
            owner,
        } => Came::Told(setup::name_pages(setup, owners, named, first, count, owner)),
        Frame::Call { core } => of_call(calling::try_call(
            setup, core, x, ledger, owners, saved, powers, turns, lists,
        )),
        Frame::Arrival { core } => {
            Came::Told(arriving::make_arrival(setup, core, saved, powers, turns))
        }
        Frame::Refused(why) => Came::Told(why),
    }
}
