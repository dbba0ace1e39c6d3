// The text of a report: a line for each count that is not 0, by world and then by answer, behind a notice where a call came
// too many.
#![tactic(auto)]

ghost use Rattle.std.specs.Prelude.{◌≡◌, ◌+◌, ◌*◌, ◌≤◌, length};
ghost use Rattle.tools.specs.Laid.{put};
ghost use Rattle.report_text.specs.Report.{head_text, pair_text, line_text, line_at, notice_text, lines_from, report_text};

use tallies::{ROWS, TOTAL, Tally};

// The size of a line.
const LINE: usize = 37;

// Room for a notice and a line for each place.
pub type Output = [u8; 12288];

// b0 and the world.
fn put_head(out: &mut [u8], at: usize, world: u64) -> usize
    requires { at + 4 ≤ length out.old }
    ensures { (result, out.new) ≡ put out.old at (head_text world) }
{
    let a = hex_write::put_byte(out, at, 0xb0);
    hex_write::put_byte(out, a, world)
}

// An answer and its count.
fn put_pair(out: &mut [u8], at: usize, x: u64, n: u64) -> usize
    requires { at + 32 ≤ length out.old }
    ensures { (result, out.new) ≡ put out.old at (pair_text x n) }
{
    let a = hex_write::put_digits(out, at, 16, x);
    hex_write::put_digits(out, a, 16, n)
}

// A line, and the place behind it; where it does not fit, nothing is put and the place stays.
fn put_line(out: &mut [u8], at: usize, world: u64, x: u64, n: u64) -> usize
    ensures { (result, out.new) ≡ put out.old at (line_text world x n) }
{
    if out.len() < LINE || out.len() - LINE < at {
        return at;
    }
    let a = put_head(out, at, world);
    let b = put_pair(out, a, x, n);
    hex_write::put_end(out, b)
}

// The notice.
fn put_notice(out: &mut [u8]) -> usize
    requires { 5 ≤ length out.old }
    ensures { (result, out.new) ≡ put out.old 0 notice_text }
{
    let a = hex_write::put_digits(out, 0, 4, 0xa08e);
    hex_write::put_end(out, a)
}

// The line of a place, where its count is not 0.
fn put_place(out: &mut [u8], at: usize, t: &Tally, i: u64) -> usize
    ensures { (result, out.new) ≡ put out.old at (line_at t.now i) }
{
    let n = tallies::count_at(t, i);
    if n == 0 {
        return at;
    }
    let x = tallies::answer_at(i % ROWS);
    put_line(out, at, i / ROWS, x, n)
}

// The lines of all places, one behind the other.
fn put_lines(out: &mut [u8], start: usize, t: &Tally) -> usize
    requires { start + 37 * 316 ≤ length out.old }
    ensures { (result, out.new) ≡ put out.old start (lines_from t.now 0 316) }
{
    let mut at = start;
    for i in 0..TOTAL {
        at = put_place(out, at, t, i);
    }
    at
}

// The whole report: how many bytes it has.
pub fn put_report(out: &mut Output, t: &Tally) -> usize
    ensures { (result, out.new) ≡ put out.old 0 (report_text t.now) }
{
    if tallies::is_over(t) {
        let start = put_notice(out);
        return put_lines(out, start, t);
    }
    put_lines(out, 0, t)
}
