// Writes a package of three images of its own, made for trying other readers on it: two whose identifiers TF-A's tools know, and
// one of our own. The second image is of no bytes.
#![tactic(auto)]

use fip_entries::ENTRY_SIZE;
use std::io;

// Trusted Boot Firmware BL2.
fn boot() -> [u8; 16] {
    *b"\x5f\xf9\xec\x0b\x4d\x22\x3e\x4d\xa5\x44\xc3\x9d\x81\xc7\x3f\x0a"
}

// Non-Trusted Firmware BL33.
fn normal() -> [u8; 16] {
    *b"\xd6\xd0\xee\xa7\xfc\xea\xd5\x4b\x97\x82\x99\x34\xf2\x34\xb6\xe4"
}

// The hours of pump 7.
fn hours() -> [u8; 16] {
    *b"pump-7-hours\x00\x00\x00\x01"
}

fn main(rt: HostRuntime) -> io::Result<()> {
    let pool = b"pump 7 starts at 06:00\nrunning hours 1204, bearings at 900\n";
    let mut plan = [0u8; 3 * ENTRY_SIZE];
    fip_plan::plan_image(&mut plan, 0, &boot(), 0, 23, 0);
    fip_plan::plan_image(&mut plan, 1, &normal(), 23, 0, 0);
    fip_plan::plan_image(&mut plan, 2, &hours(), 23, 36, 7);
    let mut out = [0u8; 4096];
    let Ok(n) = fip_write::write(0x12345678, 0, &plan, pool, &mut out) else {
        return Ok(());
    };
    match out.get(..n) {
        Some(package) => rt.write_all(package),
        None => Ok(()),
    }
}
