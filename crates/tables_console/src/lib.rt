// The tables of a run: standard input is read to its end, the tables of what a world has mapped then are built, and their bytes
// are written to standard output.
#![tactic(auto)]

ghost use Rattle.std.specs.Prelude.{◌≡◌, Some, None, IfOk, IsErrOf};
ghost use Rattle.tools.specs.Laid.{laid};
ghost use Rattle.spelling.specs.Spelled.{spelled};
ghost use Rattle.tables_console.specs.Made.{Makes};

use spelling::{Bytes, Numbers};

// How many tables the mappings of any run take at the most, and the bytes of one.
const MOST_TABLES: u64 = 44;

const TABLE_BYTES: u64 = 4096;

// Why no tables were made.
#[derive(Clone, Copy)]
pub enum Fault {
    // the input could not be read to its end
    Unread,
    // the tables do not fit into so many numbers
    NoRoom,
}

// Builds the tables of what the world has mapped after the run on standard input, and says how many they are.
pub fn make(rt: &(impl Input + Print), numbers: &mut [u64], world: u64) -> Result<u64, Fault>
    ensures made { IfOk result (λ count. Makes world numbers.old (Some count) numbers.new) }
    ensures not_made { IsErrOf result Fault.NoRoom → Makes world numbers.old None numbers.new }
{
    let remains = console::left(rt).ok_or(Fault::Unread)?;
    building::build(numbers, &remains.lists, world).ok_or(Fault::NoRoom)
}

// Writes the bytes of so many tables: whether they could be written.
pub fn tell(rt: &impl Print, numbers: &Numbers, bytes: &mut Bytes, count: u64) -> bool
    ensures { bytes.new ≡ laid bytes.old 0 (spelled numbers.now 22528) }
{
    spelling::spell(numbers, bytes);
    if MOST_TABLES < count {
        return false;
    }
    channels::write(rt, bytes, (TABLE_BYTES * count) as usize)
}
