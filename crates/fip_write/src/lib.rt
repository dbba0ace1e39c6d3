// Writes a firmware package into the space that the caller lends, all of it or nothing.
#![tactic(auto)]

mod parts;

ghost use Rattle.std.specs.Prelude.{◌≡◌};
ghost use Rattle.fip_write.specs.Writing.{wrote};

use fip_entries::Fault;

// Writes the package of the images that the plan names, in its order, taken from the bytes of the pool, and gives its length. A
// refused write changes nothing, and bytes past the package stay.
pub fn write(
    serial: u32,
    flags: u64,
    plan: &[u8],
    pool: &[u8],
    out: &mut [u8],
) -> Result<usize, Fault>
    ensures { (result, out.new) ≡ wrote serial flags plan.now pool.now out.old }
{
    fip_plan::weigh(serial, plan, pool.len(), out.len())?;
    let n = fip_table::slots_of(plan.len());
    let length = fip_plan::length_of(plan, n);
    parts::put_header(out, serial, flags);
    parts::put_rows(out, plan, n);
    parts::put_ending(out, n, length);
    parts::put_images(out, plan, pool, n);
    Ok(length)
}
