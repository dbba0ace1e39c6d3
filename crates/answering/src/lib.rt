// One frame, and the text of its answer.
#![tactic(auto)]

ghost use Rattle.std.specs.Prelude.{◌≡◌};
ghost use Rattle.tools.specs.Laid.{put};
ghost use Rattle.frames.specs.Frames.{Machine, on_machine};
ghost use Rattle.answering.specs.Answer.{text_of, answered};

use cores::{Powers, Turns};
use ledger::Ledger;
use mapping::Lists;
use pages::{Named, Owners};
use parsing::Frame;
use registers::Saved;
use setup::Setup;
use showing::Reply;

// The text of an answer, and the place behind it.
fn put_reply(out: &mut [u8], at: usize, r: Reply) -> usize
    ensures { (result, out.new) ≡ put out.old at (text_of r) }
{
    match r {
        Reply::Told(s) => text::put_status(out, at, s),
        Reply::Called { core, world, shown } => {
            text::put_call(out, at, core, world, shown.x0, shown.x1, shown.x2, shown.x3)
        }
    }
}

// One frame, and its answer: the place behind it.
// C lends each table by a pointer of its own (chiarumbeta_lent_feed), so they come one by one.
pub fn answer(
    frame: Frame,
    x: &[u64; 8],
    out: &mut [u8],
    at: usize,
    setup: &mut Setup,
    named: &mut Named,
    book: &mut Ledger,
    owners: &mut Owners,
    saved: &mut Saved,
    powers: &mut Powers,
    turns: &mut Turns,
    lists: &mut Lists,
) -> usize
    ensures { on_machine setup named book owners saved powers turns lists (λ (m m' : Machine). (m', (result, out.new)) ≡ answered m frame x.now out.old at) }
{
    let reply = frames::step(
        frame, x, setup, named, book, owners, saved, powers, turns, lists,
    );
    put_reply(out, at, reply)
}
