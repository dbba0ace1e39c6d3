// Reads a firmware package that the caller lends: whether it is sound, what its table holds, and where an image lies.
#![tactic(auto)]

ghost use Rattle.std.specs.Prelude.{◌≡◌, ◌≤◌, length, drop};
ghost use Rattle.fip_entries.specs.Faults.{status_of};
ghost use Rattle.fip_read.specs.Reading.{wrong_length, wrong_header, judged, tabled, located, part_of, address_of};

use fip_entries::Fault;

// Where an image lies in the package.
#[derive(Clone, Copy)]
pub struct Part {
    pub start: usize,
    pub size: usize,
}

#[tactic(auto, unfolding(crate::specs::Reading::wrong_length))]
fn is_wrong_length(n: usize) -> bool
    ensures { result ≡ wrong_length n }
{
    n < fip_entries::HEADER_SIZE || fip_entries::MOST_BYTES < n
}

#[tactic(auto, unfolding(crate::specs::Reading::wrong_header))]
fn is_wrong_header(pack: &[u8]) -> bool
    ensures { result ≡ wrong_header pack.now }
{
    fip_entries::number(pack, 0) != fip_entries::NAME || fip_entries::number(pack, 4) == 0
}

// What follows the header.
fn behind(pack: &[u8]) -> &[u8]
    requires { 16 ≤ length pack.now }
    ensures { result.now ≡ drop 16 pack.now }
{
    &pack[fip_entries::HEADER_SIZE..]
}

// Whether the package is accepted, or the first rule that it breaks.
pub fn judge(pack: &[u8]) -> Result<(), Fault>
    ensures { result ≡ judged pack.now }
{
    if is_wrong_length(pack.len()) {
        return Err(Fault::WrongLength);
    }
    if is_wrong_header(pack) {
        return Err(Fault::WrongHeader);
    }
    let t = behind(pack);
    if fip_table::is_unended(t) {
        return Err(Fault::WrongTable);
    }
    let n = fip_table::count_of(t);
    if fip_table::has_twins(t, n) {
        return Err(Fault::SameIdentifiers);
    }
    if fip_table::has_stray(t, pack.len(), n) || fip_table::is_crowded(t, n) {
        return Err(Fault::WrongPlace);
    }
    Ok(())
}

// The entries of an accepted package, 40 bytes each, in their order; nothing of one that is refused.
pub fn table(pack: &[u8]) -> &[u8]
    ensures { result.now ≡ tabled pack.now }
{
    if judge(pack).is_err() {
        return &pack[..0];
    }
    let e = fip_entries::HEADER_SIZE + fip_entries::entry(fip_table::count_of(behind(pack)));
    &pack[fip_entries::HEADER_SIZE..e]
}

// Where the image of an identifier lies, or why there is none.
pub fn locate(pack: &[u8], id: &[u8; 16]) -> Result<Part, Fault>
    ensures { result ≡ located pack.now id.now }
{
    judge(pack)?;
    let t = behind(pack);
    let n = fip_table::count_of(t);
    let k = fip_table::seek(t, n, id);
    if fip_entries::is_zero(id) || n <= k {
        return Err(Fault::NoImage);
    }
    let start = fip_entries::offset_of(t, k) as usize;
    let size = fip_entries::size_of(t, k) as usize;
    Ok(Part { start, size })
}

// The status of a question: 0 where the image is found, also one of no bytes, or the number of the first rule that is broken.
pub fn status(pack: &[u8], id: &[u8; 16]) -> u64
    ensures { result ≡ status_of (located pack.now id.now) }
{
    match locate(pack, id) {
        Ok(_) => fip_entries::ACCEPTED,
        Err(fault) => u64::from(fault),
    }
}

// The image of an identifier, as the very part of the package; an empty part where it is refused.
pub fn find<'a>(pack: &'a [u8], id: &[u8; 16]) -> &'a [u8]
    ensures { (result.now ≡ part_of pack.now (located pack.now id.now)) × (result.ref_ptr ≡ address_of pack.entry.ref_ptr (located pack.now id.now)) }
{
    match locate(pack, id) {
        Ok(Part { start, size }) => &pack[start..start + size],
        Err(_) => &pack[..0],
    }
}
