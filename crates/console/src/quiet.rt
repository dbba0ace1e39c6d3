// The loop of reads where only set-up and the mappings are asked for: each line is taken, and no answer is laid anywhere. The tables
// are eight, and no Machine: what only answers read is then not worked out, over a quarter of the work of a run that asks much.
ghost use Rattle.std.specs.Prelude.{◌≡◌, true, IfSome};
ghost use Rattle.lines.specs.Input.{reading};
ghost use Rattle.frames.specs.Frames.{Machine, on_machine};
ghost use Rattle.inputs.specs.Feeding.{feeding};
ghost use Rattle.inputs.specs.Run.{turned};
ghost use Rattle.inputs.specs.Waiting.{front, heard, taken};
ghost use Rattle.inputs.specs.Monitor.{Ran, Left};

use cores::{Powers, Turns};
use ledger::Ledger;
use lines::Next;
use mapping::Lists;
use pages::{Named, Owners};
use registers::Saved;
use setup::Setup;

// Takes the complete lines of a chunk, and says how far they go.
fn skim(
    chunk: &[u8],
    setup: &mut Setup,
    named: &mut Named,
    book: &mut Ledger,
    owners: &mut Owners,
    saved: &mut Saved,
    powers: &mut Powers,
    turns: &mut Turns,
    lists: &mut Lists,
) -> usize
    ensures { on_machine setup named book owners saved powers turns lists (λ (m m' : Machine). (result, m') ≡ feeding turned reading m 0 chunk.now) }
{
    let mut x = [0u64; 8];
    let mut at: usize = 0;
    while let Some(Next { frame, after }) = lines::next_line(chunk, at, &mut x) {
        frames::step(
            frame, &x, setup, named, book, owners, saved, powers, turns, lists,
        );
        at = after;
    }
    at
}

// What a read calls for, where `kept` bytes waited before it and there are n after it: how many wait then.
fn skim_read(
    buf: &mut waiting::Input,
    kept: usize,
    n: usize,
    setup: &mut Setup,
    named: &mut Named,
    book: &mut Ledger,
    owners: &mut Owners,
    saved: &mut Saved,
    powers: &mut Powers,
    turns: &mut Turns,
    lists: &mut Lists,
) -> usize
    ensures { on_machine setup named book owners saved powers turns lists (λ (m m' : Machine). (m', front result buf.new) ≡ taken turned reading m (heard buf.old kept n)) }
{
    let end = lines::close(buf, kept, n);
    let bytes: &[u8] = buf;
    let used = skim(
        &bytes[0..end],
        setup,
        named,
        book,
        owners,
        saved,
        powers,
        turns,
        lists,
    );
    lines::to_front(buf, used, end)
}

// Reads until the input ends: whether it did. The count only has the loop end: no input needs so many reads.
fn read(
    rt: &impl Input,
    buf: &mut waiting::Input,
    setup: &mut Setup,
    named: &mut Named,
    book: &mut Ledger,
    owners: &mut Owners,
    saved: &mut Saved,
    powers: &mut Powers,
    turns: &mut Turns,
    lists: &mut Lists,
) -> bool
    ensures { result ≡ true → on_machine setup named book owners saved powers turns lists Ran }
{
    let mut kept: usize = 0;
    for _ in 0..u64::MAX {
        let n = channels::fill(rt, buf, kept);
        let waits = skim_read(
            buf, kept, n, setup, named, book, owners, saved, powers, turns, lists,
        );
        if n == kept {
            return true;
        }
        kept = waits;
    }
    false
}

// Set-up and the mappings.
#[derive(Drop)]
pub struct Remains {
    pub setup: Setup,
    pub lists: Lists,
}

// Reads standard input, from a machine as it is before the first frame, and answers nothing. Set-up and the mappings as they are at the
// end, where the input was read to its end, or to where it can be read no further.
pub fn left(rt: &impl Input) -> Option<Remains>
    ensures { IfSome result (λ remains. Left remains.setup remains.lists) }
{
    let mut buf = io::large_buffer();
    let mut setup = setup::fresh();
    let mut named = pages::fresh_named();
    let mut book = ledger::fresh();
    let mut owners = pages::fresh_owners();
    let mut saved = registers::fresh();
    let mut powers = cores::fresh_powers();
    let mut turns = cores::fresh_turns();
    let mut lists = mapping::fresh();
    if read(
        rt,
        &mut buf,
        &mut setup,
        &mut named,
        &mut book,
        &mut owners,
        &mut saved,
        &mut powers,
        &mut turns,
        &mut lists,
    ) {
        return Some(Remains { setup, lists });
    }
    None
}
