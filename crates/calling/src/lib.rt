// Frame 20: a call on a core, refused as a frame or made, and what is shown after it.
#![tactic(auto)]

ghost use Rattle.std.specs.Prelude.{◌≡◌};
ghost use Rattle.cores.specs.Power.{is_on};
ghost use Rattle.cores.specs.Cores.{power};
ghost use Rattle.calls.specs.Step.{State, on_state};
ghost use Rattle.setup.specs.Frames.{core_verdict};
ghost use Rattle.calling.specs.Calling.{site_of, trying, calling};

use calls::{Made, Site};
use cores::{Powers, Turns};
use ledger::Ledger;
use mapping::Lists;
use pages::Owners;
use parsing::Status;
use registers::Saved;
use setup::Setup;
use showing::Reply;

// What set-up has fixed for the calls.
fn site_of(setup: &Setup) -> Site
    ensures { result ≡ site_of setup.now }
{
    let window = setup::window_of(setup);
    Site {
        window,
        cores: setup::cores_of(setup),
    }
}

// 20: whether the frame may come, there is such a core, and it is ON. That is asked first, so that all behind it knows of the core.
fn judge_call(setup: &Setup, core: u64, powers: &Powers) -> Result<(), Status>
    ensures { result ≡ core_verdict setup.now core (is_on (power powers.now core)) }
{
    let power = cores::power_of(powers, core);
    if power.is_on() {
        return setup::judge_core(setup, core, true);
    }
    setup::judge_core(setup, core, false)
}

// Frame 20: a call on a core that is ON. Set-up ends first, and is not looked at again.
// C lends each table by a pointer of its own (chiarumbeta_lent_call), so they come one by one.
pub fn try_call(
    setup: &mut Setup,
    core: u64,
    x: &[u64; 8],
    book: &Ledger,
    owners: &mut Owners,
    saved: &mut Saved,
    powers: &mut Powers,
    turns: &mut Turns,
    lists: &mut Lists,
) -> Result<Made, Status>
    ensures { on_state (site_of setup.old) book owners saved powers turns lists (λ (w w' : State). ((setup.new, w'), result) ≡ trying setup.old w core x.now) }
{
    judge_call(setup, core, powers)?;
    let site = site_of(setup);
    setup::end(setup);
    Ok(calls::call(site, core, x, book, owners, saved, powers, turns, lists))
}

// Frame 20, and what is shown after it.
pub fn make_call(
    setup: &mut Setup,
    core: u64,
    x: &[u64; 8],
    book: &Ledger,
    owners: &mut Owners,
    saved: &mut Saved,
    powers: &mut Powers,
    turns: &mut Turns,
    lists: &mut Lists,
) -> Reply
    ensures { on_state (site_of setup.old) book owners saved powers turns lists (λ (w w' : State). ((setup.new, w'), result) ≡ calling setup.old w core x.now) }
{
    let tried = try_call(setup, core, x, book, owners, saved, powers, turns, lists);
    match tried {
        Err(why) => Reply::Told(why),
        Ok(_) => showing::show(core, saved, powers, turns),
    }
}
