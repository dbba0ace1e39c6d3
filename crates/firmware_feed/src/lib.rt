// The bytes of a run through the library for C, for tests: an archive of its own, which firmware does not need.
#![tactic(auto)]

ghost use Rattle.std.specs.Prelude.{◌≡◌};
ghost use Rattle.frames.specs.Frames.{machine};
ghost use Rattle.inputs.specs.Fed.{stand, fed};
ghost use Rattle.firmware_feed.specs.Feed.{fed_into};

use cores::{Powers, Turns};
use ledger::Ledger;
use mapping::Lists;
use pages::{Named, Owners};
use registers::Saved;
use setup::Setup;

// How far a chunk was read, and how much was printed.
pub type Counts = [usize; 2];

// Each complete line of the chunk is answered, as far as there is room.
#[unsafe(no_mangle)]
pub extern "C" fn chiarumbeta_lent_feed(
    chunk: &[u8],
    out: &mut [u8],
    counts: &mut Counts,
    setup: &mut Setup,
    named: &mut Named,
    book: &mut Ledger,
    owners: &mut Owners,
    saved: &mut Saved,
    powers: &mut Powers,
    turns: &mut Turns,
    lists: &mut Lists,
)
    ensures { ((machine setup.new named.new book.new owners.new saved.new powers.new turns.new lists.new, out.new), counts.new) ≡ fed_into (fed chunk.now (stand (machine setup.old named.old book.old owners.old saved.old powers.old turns.old lists.old) 0 0 out.old)) }
{
    let fed = stream::feed(
        chunk, out, setup, named, book, owners, saved, powers, turns, lists,
    );
    *counts = [fed.used, fed.put];
}
