// The old table: a byte for each page, its owner.
ghost use Rattle.std.specs.Prelude.{◌≡◌};
ghost use Rattle.tools.specs.Laid.{laid};
ghost use Rattle.conversions.specs.Conversions.{byte_of, stray_bytes, byte_for, listed};

use crate::numbers;
use rules::REALM;

// The owner of a page; 0 past the end.
pub(crate) fn owner(bytes: &[u8], page: u64) -> u64
    ensures { result ≡ byte_of bytes.now page }
{
    match bytes.get(page as usize) {
        Some(owner) => u64::from(*owner),
        None => 0,
    }
}

// Whether one of the first n bytes is no owner.
pub fn has_stray_byte(n: u32, bytes: &[u8]) -> bool
    ensures { result ≡ stray_bytes n bytes.now }
{
    (0..u64::from(n)).any(|page| REALM < owner(bytes, page))
}

// The byte for a page: the owner with its mark.
fn byte_for(numbers: &[u64], page: u64) -> u8
    ensures { result ≡ byte_for numbers.now page }
{
    marks::owner_of(numbers::mark(numbers, page)) as u8
}

// Lays the owners of the first n pages over the bytes, as far as these reach. One function for both spaces would be no plainer: this
// loop and that of `lay_numbers` differ in all that they say, the type, the count and the item.
pub fn lay_bytes(n: u32, numbers: &[u64], bytes: &mut [u8])
    ensures { bytes.new ≡ laid bytes.old 0 (listed (byte_for numbers.now) 0 n) }
{
    for page in 0..bytes.len().min(n as usize) {
        bytes[page] = byte_for(numbers, page as u64);
    }
}
