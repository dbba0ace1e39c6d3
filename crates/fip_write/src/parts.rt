// The parts of a package, each laid over the bytes at its place.
ghost use Rattle.std.specs.Prelude.{◌≡◌, ◌+◌, ◌*◌, ◌≤◌, ◌<◌};
ghost use Rattle.tools.specs.Laid.{laid};
ghost use Rattle.fip_table.specs.Table.{table_end};
ghost use Rattle.fip_plan.specs.Plan.{total};
ghost use Rattle.fip_write.specs.Packed.{header, row, rows, ending, images};

pub(crate) fn put_header(out: &mut [u8], serial: u32, flags: u64)
    ensures { out.new ≡ laid out.old 0 (header serial flags) }
{
    fip_lay::put_number(out, 0, fip_entries::NAME, 4);
    fip_lay::put_number(out, 4, u64::from(serial), 4);
    fip_lay::put_number(out, 8, flags, 8);
}

// The entry of image k, which will lie at `start`.
fn put_row(out: &mut [u8], at: usize, plan: &[u8], k: u32, start: usize)
    requires { at < 0x10000000000 }
    ensures { out.new ≡ laid out.old at (row plan.now k start) }
{
    let from = fip_entries::ENTRY_SIZE * k as usize;
    fip_lay::put_bytes(out, at, plan, from, 16);
    fip_lay::put_number(out, at + 16, start as u64, 8);
    fip_lay::put_bytes(out, at + 24, plan, from + 24, 16);
}

// The entries of all images.
pub(crate) fn put_rows(out: &mut [u8], plan: &[u8], n: u32)
    requires { total plan.now n ≤ 65536 }
    ensures { out.new ≡ laid out.old 16 (rows plan.now 0 n (table_end n)) }
{
    let mut start = fip_table::table_end(n);
    for k in 0..n {
        let at = fip_entries::HEADER_SIZE + fip_entries::ENTRY_SIZE * k as usize;
        put_row(out, at, plan, k, start);
        start += fip_entries::size_of(plan, k) as usize;
    }
}

// The end entry, behind n others.
pub(crate) fn put_ending(out: &mut [u8], n: u32, whole: usize)
    ensures { out.new ≡ laid out.old (16 + 40 * n) (ending whole) }
{
    let zeros = [0u8; 16];
    fip_lay::put_entry(out, 16, n, &zeros, 0, whole as u64, 0, 0);
}

// The bytes of all images.
pub(crate) fn put_images(out: &mut [u8], plan: &[u8], pool: &[u8], n: u32)
    requires { total plan.now n ≤ 65536 }
    ensures { out.new ≡ laid out.old (table_end n) (images plan.now pool.now 0 n) }
{
    let mut at = fip_table::table_end(n);
    for k in 0..n {
        let size = fip_entries::size_of(plan, k) as usize;
        let from = fip_entries::offset_of(plan, k) as usize;
        fip_lay::put_bytes(out, at, pool, from, size);
        at += size;
    }
}
