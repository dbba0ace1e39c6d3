// How a frame is answered, and what is shown of a core after its call.
#![tactic(auto)]

ghost use Rattle.std.specs.Prelude.{◌≡◌};
ghost use Rattle.showing.specs.Showing.{shown_on};

use cores::{Powers, Turns};
use parsing::Status;
use registers::{Saved, Shown};
use rules::NORMAL;

// How a frame is answered. The world is 255 where the core is not ON after the call.
#[derive(Clone, Copy)]
pub enum Reply {
    Told(Status),
    Called { core: u64, world: u64, shown: Shown },
}

// The world shown for a core that is not ON: no Option, since `shown_on` has the number, and an answer shows it.
pub const NO_WORLD: u64 = 255;

// What is shown of a core after its call.
pub fn show(core: u64, saved: &Saved, powers: &Powers, turns: &Turns) -> Reply
    ensures { result ≡ shown_on core saved.now powers.now turns.now }
{
    let power = cores::power_of(powers, core);
    if power.is_on() {
        let turn = cores::turn_of(turns, core);
        let world = turn.world;
        let shown = registers::show(saved, core, world);
        return Reply::Called { core, world, shown };
    }
    let shown = registers::show(saved, core, NORMAL);
    Reply::Called {
        core,
        world: NO_WORLD,
        shown,
    }
}
