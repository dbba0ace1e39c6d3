// The run over any bytes: each complete line of a chunk is answered, and what is unfinished waits for more.
#![tactic(auto)]

ghost use Rattle.std.specs.Prelude.{◌≡◌};
ghost use Rattle.frames.specs.Frames.{Machine, on_machine};
ghost use Rattle.inputs.specs.Fed.{stand, fed};

use cores::{Powers, Turns};
use ledger::Ledger;
use lines::Next;
use mapping::Lists;
use pages::{Named, Owners};
use registers::Saved;
use setup::Setup;

// How far a chunk was read, and how much was printed.
#[derive(Clone, Copy)]
pub struct Fed {
    pub used: usize,
    pub put: usize,
}

// Answers the complete lines of a chunk, as far as there is room for their answers.
// C lends each table by a pointer of its own (chiarumbeta_lent_feed), so they come one by one.
pub fn feed(
    chunk: &[u8],
    out: &mut [u8],
    setup: &mut Setup,
    named: &mut Named,
    book: &mut Ledger,
    owners: &mut Owners,
    saved: &mut Saved,
    powers: &mut Powers,
    turns: &mut Turns,
    lists: &mut Lists,
) -> Fed
    ensures { on_machine setup named book owners saved powers turns lists (λ (m m' : Machine). stand m' result.used result.put out.new ≡ fed chunk.now (stand m 0 0 out.old)) }
{
    let mut x = [0u64; 8];
    let mut at: usize = 0;
    let mut put: usize = 0;
    while text::LONGEST <= out.len() - put {
        let Some(Next { frame, after }) = lines::next_line(chunk, at, &mut x) else {
            break;
        };
        put = answering::answer(
            frame, &x, out, put, setup, named, book, owners, saved, powers, turns, lists,
        );
        at = after;
    }
    Fed { used: at, put }
}
