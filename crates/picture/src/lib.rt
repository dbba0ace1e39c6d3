// The window as a picture: rows of 64 letters, one a page by its owner, mapped pages in capitals, each behind its first address.
#![tactic(auto, using(crate::specs::Picture::laws))]

ghost use Rattle.std.specs.Prelude.{◌≡◌, ◌+◌, ◌≤◌, length};
ghost use Rattle.tools.specs.Laid.{put};
ghost use Rattle.phrases.specs.Text.{told};
ghost use Rattle.picture.specs.Picture.{letter_of, letter_at, drawn, row_length, row_column, row_text};

use mapping::Lists;
use pages::{Owners, Window};
use phrases::LONGEST;

// How many pages a row has.
pub const ROW: u64 = 64;

// The letter of an owner.
fn letter(owner: u64, mapped: bool) -> u8
    ensures { result ≡ letter_of owner mapped }
{
    let letters = if mapped { b"?SNR" } else { b".snr" };
    letters.get(owner as usize).copied().unwrap_or(b'?')
}

// The letter of a page: it is mapped where its owner maps it.
fn letter_at(w: Window, owners: &Owners, lists: &Lists, page: u64) -> u8
    ensures { result ≡ letter_at w owners.now lists.now page }
{
    let owner = pages::owner_of(owners, page);
    let start = standing::address_of(w, page);
    letter(owner, mapping::meets_run(lists, owner, start, 1))
}

// The letters of some pages, from a place on.
fn draw(
    out: &mut [u8],
    at: usize,
    w: Window,
    owners: &Owners,
    lists: &Lists,
    first: u64,
    count: usize,
) -> usize
    requires { (at + count ≤ length out.old) × (first + count ≤ 0xFFFFFFFFFFFFFFFF) }
    ensures { (result, out.new) ≡ put out.old at (drawn w owners.now lists.now first count) }
{
    for k in 0..count {
        out[at + k] = letter_at(w, owners, lists, first + k as u64);
    }
    at + count
}

// How many pages the row from this page on has.
fn row_length(pages: u64, first: u64) -> usize
    ensures { (result ≡ row_length pages first) × (result ≤ 64) × (first + result ≤ 0xFFFFFFFFFFFFFFFF) }
{
    pages.saturating_sub(first).min(ROW) as usize
}

// The column in which the letters begin.
fn row_column(w: Window) -> usize
    ensures { result ≡ row_column w }
{
    if standing::is_wide(w) { 18 } else { 10 }
}

// A row: its first address, and its letters.
fn put_letters(
    out: &mut [u8],
    at: usize,
    w: Window,
    owners: &Owners,
    lists: &Lists,
    first: u64,
    n: usize,
) -> usize
    requires { (at + 96 ≤ length out.old) × (n ≡ row_length w.pages first) × (n ≤ 64) × (first + n ≤ 0xFFFFFFFFFFFFFFFF) }
    ensures { (result, out.new) ≡ put out.old at (row_text w owners.now lists.now first) }
{
    let a = phrases::put_hex(out, at, standing::address_of(w, first));
    let b = writing::put_blanks(out, a, row_column(w).saturating_sub(a - at));
    let c = draw(out, b, w, owners, lists, first, n);
    hex_write::put_end(out, c)
}

// The row from this page on, with its newline. It returns the place behind it; where there is no room for the longest line,
// nothing is put and the place stays.
pub fn put_row(
    out: &mut [u8],
    at: usize,
    w: Window,
    owners: &Owners,
    lists: &Lists,
    first: u64,
) -> usize
    ensures { (result, out.new) ≡ told out.old at (row_text w owners.now lists.now first) }
{
    if out.len() < LONGEST || out.len() - LONGEST < at {
        return at;
    }
    let n = row_length(w.pages, first);
    put_letters(out, at, w, owners, lists, first, n)
}
