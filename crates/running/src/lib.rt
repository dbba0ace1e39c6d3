// The world that runs on a core.
#![tactic(auto, using(crate::specs::Running::runs))]

ghost use Rattle.std.specs.Prelude.{◌≡◌};
ghost use Rattle.running.specs.Running.{running_on, runs_after};

use cores::{Powers, Turns};
use parsing::Frame;

// What stands for the world of a core that is not ON, and of a frame that is no call. No Option: `running_on`, `turned` and
// `sentence_of` of specs/ have 255 there.
pub const NO_WORLD: u64 = 255;

// The world that runs on a core.
fn running_on(core: u64, powers: &Powers, turns: &Turns) -> u64
    ensures { result ≡ running_on powers.now turns.now core }
{
    let power = cores::power_of(powers, core);
    if power.is_on() {
        cores::turn_of(turns, core).world
    } else {
        NO_WORLD
    }
}

// The world that runs on the core of a call.
pub fn runs_after(frame: Frame, powers: &Powers, turns: &Turns) -> u64
    ensures { result ≡ runs_after frame powers.now turns.now }
{
    match frame {
        Frame::Call { core } => running_on(core, powers, turns),
        _ => NO_WORLD,
    }
}
