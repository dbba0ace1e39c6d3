// The text of answers.
#![tactic(auto)]

ghost use Rattle.std.specs.Prelude.{◌≡◌, ◌+◌, ◌≤◌, length};
ghost use Rattle.tools.specs.Laid.{put};
ghost use Rattle.text.specs.Text.{head_text, status_text, call_text};

use parsing::Status;

// The size of each answer: a status, and a call, the longest.
const STATUS: usize = 5;

pub const LONGEST: usize = 71;

// What stands before the numbers of a call's answer.
fn put_head(out: &mut [u8], at: usize, core: u64, world: u64) -> usize
    requires { at + 6 ≤ length out.old }
    ensures { (result, out.new) ≡ put out.old at (head_text core world) }
{
    let a = hex_write::put_byte(out, at, 0xa1);
    let b = hex_write::put_byte(out, a, core);
    hex_write::put_byte(out, b, world)
}

// The answer to a frame that is no accepted call: a0 and the status. It returns the place
// behind it; where the answer does not fit, nothing is put and the place stays.
pub fn put_status(out: &mut [u8], at: usize, s: Status) -> usize
    ensures { (result, out.new) ≡ put out.old at (status_text s) }
{
    if out.len() < STATUS || out.len() - STATUS < at {
        return at;
    }
    let a = hex_write::put_byte(out, at, 0xa0);
    let b = hex_write::put_byte(out, a, u64::from(s));
    hex_write::put_end(out, b)
}

// The answer to an accepted call: a1, the core, the world that runs there and its x0 to x3; put or not in the same way.
// Six numbers and no struct: `call_text` and the theorems on it speak of each.
pub fn put_call(
    out: &mut [u8],
    at: usize,
    core: u64,
    world: u64,
    x0: u64,
    x1: u64,
    x2: u64,
    x3: u64,
) -> usize
    ensures { (result, out.new) ≡ put out.old at (call_text core world x0 x1 x2 x3) }
{
    if out.len() < LONGEST || out.len() - LONGEST < at {
        return at;
    }
    let a = put_head(out, at, core, world);
    let b = hex_write::put_numbers(out, a, x0, x1, x2, x3);
    hex_write::put_end(out, b)
}
