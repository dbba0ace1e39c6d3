// What mending a set-up file sets down: the text of the kept lines, that of a notice for each dropped one, and how far each goes.
#![tactic(auto)]

ghost use Rattle.std.specs.Prelude.{◌≡◌, ◌+◌, ◌≤◌, length};
ghost use Rattle.tools.specs.Laid.{put};
ghost use Rattle.sheets.specs.Sheet.{line_text, number_text, dropped_text, counting, on_sheet, kept_on, dropped_on, noted_on, finished, Sheet};

// At most so many lines are mended.
const MOST: u64 = 512;

// The size of a notice.
const NOTICE: usize = 9;

// Room for 512 kept lines of at most 24 digits, and behind them for 512 notices.
pub type Kept = [u8; 17408];

// Room for 512 notices.
pub type Dropped = [u8; 4608];

// How many lines came, where the text of the kept ones ends, and where that of the dropped ones. A row and no struct: `Sheet` and the
// theorems on it have them as a list.
pub type Ends = [u64; 3];

// A line and its newline, and the place behind them; where they do not fit, nothing is put and the place stays.
fn put_line(out: &mut [u8], at: usize, line: &[u8]) -> usize
    ensures { (result, out.new) ≡ put out.old at (line_text line.now) }
{
    if out.len() <= line.len() || out.len() - line.len() <= at {
        return at;
    }
    let a = writing::put_text(out, at, line);
    hex_write::put_end(out, a)
}

// c0 and the number of a line.
fn put_number(out: &mut [u8], at: usize, number: u64) -> usize
    requires { at + 6 ≤ length out.old }
    ensures { (result, out.new) ≡ put out.old at (number_text number) }
{
    let a = hex_write::put_byte(out, at, 0xc0);
    hex_write::put_digits(out, a, 4, number)
}

// The notice of a dropped line, put or not in the same way.
fn put_notice(out: &mut [u8], at: usize, number: u64, status: u64) -> usize
    ensures { (result, out.new) ≡ put out.old at (dropped_text number status) }
{
    if out.len() < NOTICE || out.len() - NOTICE < at {
        return at;
    }
    let a = put_number(out, at, number);
    let b = hex_write::put_byte(out, a, status);
    hex_write::put_end(out, b)
}

// One line more: whether it is one of the first 512.
pub fn count_line(ends: &mut Ends) -> bool
    ensures { (result, ends.new) ≡ counting ends.old }
{
    let n = ends[0];
    if n < MOST {
        ends[0] = n + 1;
        return true;
    }
    ends[0] = MOST + 1;
    false
}

fn keep(line: &[u8], kept: &mut Kept, ends: &mut Ends)
    ensures { (kept.new, ends.new) ≡ kept_on kept.old ends.old line.now }
{
    let space: &mut [u8] = kept;
    let end = put_line(space, ends[1] as usize, line);
    ends[1] = end as u64;
}

fn leave(status: u64, dropped: &mut Dropped, ends: &mut Ends)
    ensures { (dropped.new, ends.new) ≡ dropped_on dropped.old ends.old status }
{
    let space: &mut [u8] = dropped;
    let end = put_notice(space, ends[2] as usize, ends[0], status);
    ends[2] = end as u64;
}

// Sets down a line that was judged: with status 0 it is kept. The status is a number, as `noted_on` has it and a notice shows it.
pub fn note(status: u64, line: &[u8], kept: &mut Kept, dropped: &mut Dropped, ends: &mut Ends)
    ensures { on_sheet kept dropped ends (λ (s s' : Sheet). s' ≡ noted_on s status line.now) }
{
    if status == 0 {
        keep(line, kept, ends);
        return;
    }
    leave(status, dropped, ends);
}

// The text of the dropped lines behind that of the kept ones, or one notice alone where too many lines came: how many bytes it has.
pub fn finish(kept: &mut Kept, dropped: &Dropped, ends: &Ends) -> usize
    ensures { (result, kept.new) ≡ finished kept.old dropped.now ends.now }
{
    let space: &mut [u8] = kept;
    if MOST < ends[0] {
        let a = hex_write::put_digits(space, 0, 4, 0xa08f);
        return hex_write::put_end(space, a);
    }
    let at = ends[1] as usize;
    let n = ends[2] as usize;
    writing::put_text(space, at, &dropped[..n.min(dropped.len())])
}
