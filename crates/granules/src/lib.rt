// The granule table: a mark for each page, sixteen in each number. Runs of pages are tested and marked by whole numbers where they cover sixteen.
#![tactic(auto)]

ghost use Rattle.std.specs.Prelude.{◌≡◌, ◌<◌};
ghost use Rattle.rules.specs.Sizes.{most_pages};
ghost use Rattle.tools.specs.Search.{all};
ghost use Rattle.granules.specs.Table.{unmarked, mark, WholeMarks};
ghost use Rattle.granules.specs.Runs.{bears, all_bear, written, filled};
ghost use Rattle.granules.specs.Strides.{stride};

use rules::MOST_PAGES;

// The marks of one number.
const SIXTEEN: u64 = 16;

// The mark 1 at each of the sixteen places.
const ONES: u64 = 0x1111111111111111;

// How many numbers there are.
const NUMBERS: u64 = MOST_PAGES / SIXTEEN;

pub type Granules = [u64; NUMBERS as usize];

// No page has a mark.
#[tactic(auto, using(crate::specs::Table::unmarked_is))]
pub fn fresh() -> Granules
    ensures { result ≡ unmarked }
{
    [0; NUMBERS as usize]
}

// The mark of a page; 0 past the last.
#[tactic(auto, using(crate::specs::Table::places))]
pub fn mark_of(t: &Granules, page: u64) -> u64
    ensures { result ≡ mark t.now page }
{
    if MOST_PAGES <= page {
        return 0;
    }
    marks::read(t[(page / SIXTEEN) as usize], page)
}

// That the table is whole, for those who compare and write its numbers as wholes.
fn see_whole(t: &Granules) -> u64
    ensures { WholeMarks t.now }
{
    let s: &[u64] = t;
    s[0]
}

// How many pages are taken at once, with so many left: the sixteen of a number, or one.
#[tactic(auto, using(crate::specs::Strides::strides))]
fn stride_of(page: u64, left: u64) -> u64
    ensures { result ≡ stride page left }
{
    if page % SIXTEEN != 0 || left < SIXTEEN {
        return 1;
    }
    SIXTEEN
}

// Whether each page of the next stride has the mark.
#[tactic(auto, using(crate::specs::Strides::parts))]
fn stride_bears(t: &Granules, page: u64, left: u64, m: u64) -> bool
    ensures { result ≡ all (bears t.now m) page (stride page left) }
{
    if MOST_PAGES <= page {
        return false;
    }
    see_whole(t);
    let number = t[(page / SIXTEEN) as usize];
    if stride_of(page, left) == SIXTEEN {
        return number == m % SIXTEEN * ONES;
    }
    marks::read(number, page) == m % SIXTEEN
}

// Whether each page of the run is one of the table and has the mark. A single page, as most calls have it, needs no loop. The loop is
// no `for`, here and below: its steps are of one page or of sixteen, so that there is no range that it goes over.
pub fn all_bear(t: &Granules, first: u64, count: u64, m: u64) -> bool
    ensures { result ≡ all_bear t.now first count m }
{
    if count == 1 {
        return stride_bears(t, first, 1, m);
    }
    let mut page = first;
    let mut unseen = count;
    while 0 < unseen {
        let n = stride_of(page, unseen);
        if !stride_bears(t, page, unseen, m) {
            return false;
        }
        page += n;
        unseen -= n;
    }
    true
}

// Gives each page of the next stride the mark.
#[tactic(auto, using(crate::specs::Strides::parts))]
fn mark_stride(t: &mut Granules, page: u64, left: u64, m: u64)
    requires { page < most_pages }
    ensures { t.new ≡ written t.old page (stride page left) m }
{
    see_whole(t);
    let i = (page / SIXTEEN) as usize;
    if stride_of(page, left) == SIXTEEN {
        t[i] = m % SIXTEEN * ONES;
    } else {
        let was = t[i];
        t[i] = marks::write(was, page, m);
    }
}

// Gives each page of the run the mark, of which the low four bits count; or none where the run passes the last page.
pub fn mark_run(t: &mut Granules, first: u64, count: u64, m: u64)
    ensures { t.new ≡ filled t.old first count m }
{
    if MOST_PAGES < first {
        return;
    }
    if MOST_PAGES - first < count {
        return;
    }
    if count == 1 {
        mark_stride(t, first, 1, m);
        return;
    }
    let mut page = first;
    let mut unwritten = count;
    while 0 < unwritten {
        let n = stride_of(page, unwritten);
        mark_stride(t, page, unwritten, m);
        page += n;
        unwritten -= n;
    }
}
