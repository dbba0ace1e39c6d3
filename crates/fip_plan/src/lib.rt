// A plan names the images of a package in their order, 40 bytes each: exactly as many as there are images, since an entry that is
// left zero is refused, and bytes behind the last whole entry are not read. An entry is that of a package's table, but its offset
// counts from the first of the image bytes that are lent, and no end entry belongs to it.
#![tactic(auto)]

ghost use Rattle.std.specs.Prelude.{◌≡◌};
ghost use Rattle.fip_plan.specs.Plan.{total, capped, planned_at, weighed};

use fip_entries::Fault;

// Sets image k of a plan: its identifier, where its bytes begin in those that are lent, how many they are, and its flags. Where the
// plan has no such entry it answers false, and nothing is changed.
pub fn plan_image(
    plan: &mut [u8],
    k: u32,
    id: &[u8; 16],
    offset: u64,
    size: u64,
    flags: u64,
) -> bool
    ensures { (result, plan.new) ≡ planned_at plan.old k id.now offset size flags }
{
    if plan.len() / fip_entries::ENTRY_SIZE <= k as usize {
        return false;
    }
    fip_lay::put_entry(plan, 0, k, id, 0, offset, size, flags);
    true
}

// How long the package of the first n images is, or one more than the most where it is longer than that: a number and no Option, as
// its promise is the equation with `capped`.
pub fn length_of(plan: &[u8], n: u32) -> usize
    ensures { result ≡ capped (total plan.now n) }
{
    let mut at = fip_table::table_end(n);
    if fip_entries::MOST_BYTES < at {
        return fip_entries::MOST_BYTES + 1;
    }
    for k in 0..n {
        let size = fip_entries::size_of(plan, k) as usize;
        if fip_entries::MOST_BYTES - at < size {
            return fip_entries::MOST_BYTES + 1;
        }
        at += size;
    }
    at
}

// Whether a write would break no rule, or the first that it would break, where `room` image bytes and a space of `space` bytes are
// lent.
pub fn weigh(serial: u32, plan: &[u8], room: usize, space: usize) -> Result<(), Fault>
    ensures { result ≡ weighed serial plan.now room space }
{
    if serial == 0 {
        return Err(Fault::WrongHeader);
    }
    let n = fip_table::slots_of(plan.len());
    if fip_entries::MOST_IMAGES < n as usize || fip_table::has_blank(plan, n) {
        return Err(Fault::WrongTable);
    }
    if fip_table::has_twins(plan, n) {
        return Err(Fault::SameIdentifiers);
    }
    if fip_table::has_stray(plan, room, n) {
        return Err(Fault::WrongPlace);
    }
    let length = length_of(plan, n);
    if fip_entries::MOST_BYTES < length || space < length {
        return Err(Fault::NoRoom);
    }
    Ok(())
}
