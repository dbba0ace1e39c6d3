// A table: entries one behind the other, of a package behind its header or of a plan. How many there are, which one has an
// identifier, and what is wrong with them.
#![tactic(auto)]

ghost use Rattle.std.specs.Prelude.{◌≡◌, ◌≤◌};
ghost use Rattle.tools.specs.Search.{any};
ghost use Rattle.fip_entries.specs.Entries.{shares};
ghost use Rattle.fip_table.specs.Table.{blank, repeated, doubled, strays, covers, crowded, slots, count, unended, sought, table_end};

// How many entries are looked at: those of the images, and an end entry.
const SLOTS: usize = fip_entries::MOST_IMAGES + 1;

// How long header, n entries and end entry are together.
#[tactic(auto, unfolding(crate::specs::Table::table_end))]
pub fn table_end(n: u32) -> usize
    ensures { result ≡ table_end n }
{
    fip_entries::HEADER_SIZE + (fip_entries::ENTRY_SIZE * n as usize + fip_entries::ENTRY_SIZE)
}

// Whether entry k is blank: its identifier is all zero, or it is not there.
#[tactic(auto, unfolding(crate::specs::Table::blank))]
fn is_blank(t: &[u8], k: u32) -> bool
    ensures { result ≡ blank t.now k }
{
    let zeros = [0u8; 16];
    fip_entries::is_same(t, k, &zeros, 0)
}

// Whether an entry before entry i has its identifier.
fn is_repeated(t: &[u8], i: u32) -> bool
    ensures { result ≡ repeated t.now i }
{
    (0..i).any(|j| fip_entries::is_same(t, j, t, i))
}

// Whether image i lies over one before it that has bytes.
fn is_over(t: &[u8], i: u32) -> bool
    ensures { result ≡ any (shares t.now i) 0 i }
{
    (0..i).any(|j| fip_entries::is_shared(t, i, j))
}

// Whether image i has bytes, and one where an image before it has some, or where the table of n entries is.
#[tactic(auto, unfolding(crate::specs::Table::covers))]
fn is_covering(t: &[u8], n: u32, i: u32) -> bool
    ensures { result ≡ covers t.now n i }
{
    let is_over_table = fip_entries::offset_of(t, i) < table_end(n) as u64;
    fip_entries::size_of(t, i) != 0 && (is_over_table || is_over(t, i))
}

// Whether one of n entries is blank.
pub fn has_blank(t: &[u8], n: u32) -> bool
    ensures { result ≡ any (blank t.now) 0 n }
{
    (0..n).any(|k| is_blank(t, k))
}

// Whether an identifier stands twice among n entries.
pub fn has_twins(t: &[u8], n: u32) -> bool
    ensures { result ≡ doubled t.now n }
{
    (0..n).any(|i| is_repeated(t, i))
}

// Whether one of n images does not lie in the first `room` bytes.
pub fn has_stray(t: &[u8], room: usize, n: u32) -> bool
    ensures { result ≡ strays t.now room n }
{
    (0..n).any(|k| fip_entries::is_outside(t, room, k))
}

// Whether one of n images that have bytes lies over the table or another such image.
pub fn is_crowded(t: &[u8], n: u32) -> bool
    ensures { result ≡ crowded t.now n }
{
    (0..n).any(|i| is_covering(t, n, i))
}

// The first of n entries that has the identifier, or n: a number and no Option, as its promise is the equation with `sought`.
pub fn seek(t: &[u8], n: u32, id: &[u8]) -> u32
    ensures { result ≡ sought t.now n id.now }
{
    (0..n)
        .find(|k| fip_entries::is_same(t, *k, id, 0))
        .unwrap_or(n)
}

// How many whole entries are looked at in so many bytes.
pub fn slots_of(bytes: usize) -> u32
    ensures { (result ≡ slots bytes) × (result ≤ 65) }
{
    (bytes / fip_entries::ENTRY_SIZE).min(SLOTS) as u32
}

// How many entries stand before the first blank one, or are looked at where none is.
pub fn count_of(t: &[u8]) -> u32
    ensures { result ≡ count t.now }
{
    let n = slots_of(t.len());
    (0..n).find(|k| is_blank(t, *k)).unwrap_or(n)
}

// Whether no whole end entry is found.
#[tactic(auto, unfolding(crate::specs::Table::unended))]
pub fn is_unended(t: &[u8]) -> bool
    ensures { result ≡ unended t.now }
{
    slots_of(t.len()) <= count_of(t)
}
