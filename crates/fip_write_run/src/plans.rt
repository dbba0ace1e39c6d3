// A plan, and what the writer makes of it.
ghost use Rattle.std.specs.Prelude.{◌≤◌};

use fip_entries::{ENTRY_SIZE, MOST_BYTES};
use std::io;

// Room for 65 entries.
pub(crate) type Plan = [u8; 65 * ENTRY_SIZE];

// As many image bytes as a package may have bytes, and a space for one byte more.
const POOL: usize = MOST_BYTES;

const SPACE: usize = MOST_BYTES + 1;

// What every byte of the space is before a write.
const BEFORE: u8 = 0x5a;

// Sets image k of a plan. Its identifier begins with a number and is zero else.
fn set(plan: &mut Plan, k: u8, n: u8, offset: u64, size: u64) {
    let mut id = [0u8; 16];
    id[0] = n;
    fip_plan::plan_image(plan, u32::from(k), &id, offset, size, 0);
}

// The plan with image k set.
pub(crate) fn with(mut plan: Plan, k: u8, n: u8, offset: u64, size: u64) -> Plan {
    set(&mut plan, k, n, offset, size);
    plan
}

// Three images, of 5, 0 and 3 bytes.
pub(crate) fn three() -> Plan {
    with(
        with(with([0; 65 * ENTRY_SIZE], 0, 1, 0, 5), 1, 2, 5, 0),
        2,
        3,
        5,
        3,
    )
}

// 65 images of one byte each.
pub(crate) fn many() -> Plan {
    let mut plan = [0; 65 * ENTRY_SIZE];
    for k in 0..65 {
        set(&mut plan, k, k + 1, 0, 1);
    }
    plan
}

fn write_into(rt: &impl Print, serial: u32, plan: &[u8], out: &mut [u8]) -> io::Result<()> {
    match fip_write::write(serial, 0, plan, &[1; POOL], out) {
        Ok(n) => print!(rt; ": written {n}")?,
        Err(fault) => print!(rt; ": {:02x}", u64::from(fault))?,
    }
    if out.iter().all(|b| *b == BEFORE) {
        print!(rt; ", nothing written")?;
    }
    Ok(())
}

// Writes the first n images of a plan into a space of so many bytes.
pub(crate) fn write(
    rt: &impl Print,
    text: &str,
    serial: u32,
    plan: Plan,
    n: u8,
    space: usize,
) -> io::Result<()>
    requires { (n ≤ 65) × (space ≤ 65537) }
{
    let mut fresh = [BEFORE; SPACE];
    print!(rt; "{text}")?;
    write_into(
        rt,
        serial,
        &plan[..ENTRY_SIZE * usize::from(n)],
        &mut fresh[..space],
    )?;
    println!(rt)
}
