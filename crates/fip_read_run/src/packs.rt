// The packages that the cases begin with, and what is changed in them.
ghost use Rattle.std.specs.Prelude.{◌≤◌};

use fip_entries::{ENTRY_SIZE, HEADER_SIZE, MOST_BYTES};

// Room for one byte more than a package may have.
const SPACE: usize = MOST_BYTES + 1;

pub(crate) type Pack = [u8; SPACE];

// The name, and serial number 1.
const HEADER: u64 = 0x1aa640001;

// The numbers of a row.
pub(crate) type Fields = [u64; 7];

// A number in eight bytes, the lowest first; nothing where one of them would lie past the end.
fn set(pack: &mut Pack, at: usize, v: u64) {
    if at <= SPACE - 8 {
        pack[at..at + 8].copy_from_slice(&v.to_le_bytes());
    }
}

// How many bytes image k has.
fn size(k: u8) -> u64
    ensures { result ≤ 5 }
{
    match k {
        0 => 5,
        2 => 3,
        _ => 0,
    }
}

// Entry k, whose identifier begins with k + 1 and is zero else.
fn set_entry(pack: &mut Pack, k: u8, offset: u64) {
    let at = HEADER_SIZE + ENTRY_SIZE * usize::from(k);
    set(pack, at, u64::from(k) + 1);
    set(pack, at + 16, offset);
    set(pack, at + 24, size(k));
}

// A package of n images of 5, 0, 3 and then 0 bytes, with no gap. The end entry and the bytes of the images are left zero.
fn package(n: u8) -> Pack {
    let mut pack = [0u8; SPACE];
    set(&mut pack, 0, HEADER);
    let mut offset = 56 + 40 * u64::from(n);
    for k in 0..n {
        set_entry(&mut pack, k, offset);
        offset += size(k);
    }
    pack
}

// The package of a row, with the numbers that are given put at their places.
pub(crate) fn package_of(fields: Fields) -> Pack {
    let mut pack = package((fields[0] % 256) as u8);
    set(&mut pack, fields[3] as usize, fields[4]);
    set(&mut pack, fields[5] as usize, fields[6]);
    pack
}
