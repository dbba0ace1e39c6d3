// Frame 21: a pending core arrives.
#![tactic(auto)]

ghost use Rattle.std.specs.Prelude.{◌≡◌};
ghost use Rattle.cores.specs.Power.{is_pending};
ghost use Rattle.cores.specs.Cores.{power};
ghost use Rattle.calls.specs.Step.{core_tables};
ghost use Rattle.setup.specs.Frames.{core_verdict};
ghost use Rattle.arriving.specs.Arriving.{arriving};

use cores::{Powers, Turns};
use parsing::Status;
use registers::Saved;
use setup::Setup;

// 21: whether the frame may come, there is such a core, and it is pending.
fn judge_arrival(setup: &Setup, core: u64, powers: &Powers) -> Result<(), Status>
    ensures { result ≡ core_verdict setup.now core (is_pending (power powers.now core)) }
{
    let power = cores::power_of(powers, core);
    setup::judge_core(setup, core, power.is_pending())
}

// Frame 21: a pending core arrives.
pub fn make_arrival(
    setup: &Setup,
    core: u64,
    saved: &mut Saved,
    powers: &mut Powers,
    turns: &mut Turns,
) -> Status
    ensures { (core_tables saved.new powers.new turns.new, result) ≡ arriving setup.now (core_tables saved.old powers.old turns.old) core }
{
    let Err(why) = judge_arrival(setup, core, powers) else {
        calls::arrive(core, saved, powers, turns);
        return Status::Accepted;
    };
    why
}
