// The packed table: sixteen marks in a number, that of the lowest page in the lowest bits.
ghost use Rattle.std.specs.Prelude.{◌≡◌, ◌≤◌, ◌<◌};
ghost use Rattle.tools.specs.Laid.{laid};
ghost use Rattle.conversions.specs.Conversions.{mark_in, numbers_for, stray_mark, stray_marks, mark_for, number_for, listed};

use crate::bytes;
use rules::REALM;

// The mark of a page; 0 past the end.
pub(crate) fn mark(numbers: &[u64], page: u64) -> u64
    ensures { result ≡ mark_in numbers.now page }
{
    match numbers.get((page / 16) as usize) {
        Some(number) => marks::read(*number, page),
        None => 0,
    }
}

// Whether a mark is wrong: that of a page which is no owner's, or one past the last of n pages that is not 0.
fn is_stray(n: u64, numbers: &[u64], page: u64) -> bool
    ensures { result ≡ stray_mark n numbers.now page }
{
    let mark = mark(numbers, page);
    if page < n {
        REALM < marks::owner_of(mark)
    } else {
        0 < mark
    }
}

// How many numbers the marks of n pages take: one that is begun is needed whole.
fn numbers_for(n: u32) -> u64
    ensures { (result ≡ numbers_for n) × (result ≤ 0x10000000) }
{
    (u64::from(n) + 15) / 16
}

// Whether one of the marks of the numbers that n pages take is wrong.
pub fn has_stray_mark(n: u32, numbers: &[u64]) -> bool
    ensures { result ≡ stray_marks n numbers.now }
{
    (0..16 * numbers_for(n)).any(|page| is_stray(u64::from(n), numbers, page))
}

// The mark for a page: that of its owner, and 0 past the last of n.
fn mark_for(n: u64, bytes: &[u8], page: u64) -> u64
    ensures { result ≡ mark_for n bytes.now page }
{
    if page < n {
        marks::mark_of(bytes::owner(bytes, page))
    } else {
        0
    }
}

// The number at a place: the marks of sixteen pages.
fn number_for(n: u64, bytes: &[u8], i: u64) -> u64
    requires { i < 0x10000000 }
    ensures { result ≡ number_for n bytes.now i }
{
    let mut number = 0;
    for page in 16 * i..16 * i + 16 {
        number = marks::write(number, page, mark_for(n, bytes, page));
    }
    number
}

// Lays the numbers with the marks of n pages over the numbers, as far as these reach.
pub fn lay_numbers(n: u32, bytes: &[u8], numbers: &mut [u64])
    ensures { numbers.new ≡ laid numbers.old 0 (listed (number_for n bytes.now) 0 (numbers_for n)) }
{
    for i in 0..numbers.len().min(numbers_for(n) as usize) {
        numbers[i] = number_for(u64::from(n), bytes, i as u64);
    }
}
