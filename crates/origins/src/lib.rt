// How many lines a run has had, and for each page of the window the number of the line that named its owner.
#![tactic(auto)]

ghost use Rattle.std.specs.Prelude.{◌≡◌};
ghost use Rattle.origins.specs.Origins.{none, origin, marked};
ghost use Rattle.origins.specs.Lines.{no_line, lines_in, one_more};

use rules::MOST_PAGES;

// The line that named each page's owner, counted from 1: 0 where none did.
pub type Origins = [u64; MOST_PAGES as usize];

// How many lines came.
pub type Lines = [u64; 1];

// No page is named.
pub fn fresh() -> Origins
    ensures { result ≡ none }
{
    [0; MOST_PAGES as usize]
}

// The line that named the owner of a page; 0 where none did, and past the last page.
pub fn line_of(t: &Origins, page: u64) -> u64
    ensures { result ≡ origin t.now page }
{
    if page < MOST_PAGES {
        return t[page as usize];
    }
    0
}

// A line names the owner of each page of a run, or of none where the run passes the last page.
pub fn mark_run(t: &mut Origins, first: u64, count: u64, line: u64)
    ensures { t.new ≡ marked t.old first count line }
{
    if MOST_PAGES < first || MOST_PAGES - first < count {
        return;
    }
    t[first as usize..(first + count) as usize].fill(line);
}

// No line came.
pub fn fresh_lines() -> Lines
    ensures { result ≡ no_line }
{
    [0; 1]
}

// How many lines came: the number of the last one.
pub fn lines_in(t: &Lines) -> u64
    ensures { result ≡ lines_in t.now }
{
    t[0]
}

// One line more. No input has so many that the number stays.
pub fn count_line(t: &mut Lines)
    ensures { t.new ≡ one_more t.old }
{
    t[0] = t[0].saturating_add(1);
}
