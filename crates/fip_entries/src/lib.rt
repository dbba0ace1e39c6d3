// What reader and writer of a firmware package share: the faults, the sizes of the format, and an entry of 40 bytes: the
// identifier of an image, then its offset, its size and its flags. An entry that is not there reads as zero.
#![tactic(auto)]

mod numbers;

ghost use Rattle.std.specs.Prelude.{◌≡◌, ◌+◌, ◌*◌, ◌<◌};
ghost use Rattle.fip_entries.specs.Faults.{number_of};
ghost use Rattle.fip_entries.specs.Numbers.{eight};
ghost use Rattle.fip_entries.specs.Entries.{entry, offset, size, flags, same, zeros, outside, begins, shares};

pub use numbers::{long_number, number};

// The status of what is accepted. That of what is refused is the number of its fault.
pub const ACCEPTED: u64 = 0;

// What reader and writer refuse: the first rule that is broken.
#[derive(Clone, Copy)]
pub enum Fault {
    // what is read is under 16 or over 65536 bytes
    WrongLength,
    // another name, or serial number 0
    WrongHeader,
    // no whole end entry; of what is to be written, over 64 images or a blank one
    WrongTable,
    // an identifier twice
    SameIdentifiers,
    // an image outside, or over the table or another image
    WrongPlace,
    // no image has the identifier, or it is all zero
    NoImage,
    // what is to be written is over 65536 bytes, or over the space that is lent
    NoRoom,
}

// Its number.
impl From<Fault> for u64 {
    ghost from_gives = { λ fault number. number ≡ number_of fault };

    fn from(fault: Fault) -> u64 {
        match fault {
            Fault::WrongLength => 0x81,
            Fault::WrongHeader => 0x82,
            Fault::WrongTable => 0x83,
            Fault::SameIdentifiers => 0x84,
            Fault::WrongPlace => 0x85,
            Fault::NoImage => 0x86,
            Fault::NoRoom => 0x87,
        }
    }
}

// The format: the number that a package begins with, the bytes of its header and of an entry, and the most images and bytes that it
// has.
pub const NAME: u64 = 0xaa640001;

pub const HEADER_SIZE: usize = 16;

pub const ENTRY_SIZE: usize = 40;

pub const MOST_IMAGES: usize = 64;

pub const MOST_BYTES: usize = 65536;

// Where entry k begins.
pub fn entry(k: u32) -> usize
    ensures { (result ≡ entry k) × (result < 0x10000000000) }
{
    ENTRY_SIZE * k as usize
}

// Three readers of numbers, and not one that is given the place in the entry: their names are those of the format, and each is a line.
// Of entry k: where its image begins, counted from the package's first byte, or in a plan from the first of the image bytes.
#[tactic(auto, unfolding(crate::specs::Entries::offset))]
pub fn offset_of(t: &[u8], k: u32) -> u64
    ensures { result ≡ offset t.now k }
{
    numbers::eight(t, ENTRY_SIZE * k as usize + 16)
}

// Of entry k: how many bytes its image has.
#[tactic(auto, unfolding(crate::specs::Entries::size))]
pub fn size_of(t: &[u8], k: u32) -> u64
    ensures { result ≡ size t.now k }
{
    numbers::eight(t, ENTRY_SIZE * k as usize + 24)
}

// Of entry k: the flags of its image.
#[tactic(auto, unfolding(crate::specs::Entries::flags))]
pub fn flags_of(t: &[u8], k: u32) -> u64
    ensures { result ≡ flags t.now k }
{
    numbers::eight(t, ENTRY_SIZE * k as usize + 32)
}

// Whether entry k of t has the identifier of entry i of s. An identifier that is lent alone is its entry 0.
pub fn is_same(t: &[u8], k: u32, s: &[u8], i: u32) -> bool
    ensures { result ≡ same t.now (entry k) s.now (entry i) }
{
    let a = ENTRY_SIZE * k as usize;
    let b = ENTRY_SIZE * i as usize;
    (0..16).all(|at| numbers::byte(t, a + at) == numbers::byte(s, b + at))
}

// Whether the identifier is all zero, as no image's is.
pub fn is_zero(id: &[u8]) -> bool
    ensures { result ≡ same id.now 0 zeros 0 }
{
    let zeros = [0u8; 16];
    is_same(id, 0, &zeros, 0)
}

// Whether image k does not lie in the first `room` bytes.
#[tactic(auto, unfolding(crate::specs::Entries::outside))]
pub fn is_outside(t: &[u8], room: usize, k: u32) -> bool
    ensures { result ≡ outside t.now room k }
{
    numbers::is_below(room as u64, offset_of(t, k), size_of(t, k))
}

// Whether image i begins before image j ends.
#[tactic(auto, unfolding(crate::specs::Entries::begins))]
fn is_begun(t: &[u8], i: u32, j: u32) -> bool
    ensures { result ≡ begins t.now i j }
{
    numbers::is_below(offset_of(t, i), offset_of(t, j), size_of(t, j))
}

// Whether image j has bytes, and shares one with image i if that has some too.
#[tactic(auto, unfolding(crate::specs::Entries::shares))]
pub fn is_shared(t: &[u8], i: u32, j: u32) -> bool
    ensures { result ≡ shares t.now i j }
{
    size_of(t, j) != 0 && (is_begun(t, i, j) && is_begun(t, j, i))
}
