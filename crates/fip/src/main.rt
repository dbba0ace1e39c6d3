// Lists the images of a firmware package: fip FILE. Writes one of them to standard output: fip FILE IDENTIFIER.
#![tactic(auto)]

use fip_entries::Fault;
use std::io;
use std::io::Error;
use std::rt::Env;

// One byte more than a package has at most, so that a longer file is seen to be one.
const SPACE: usize = fip_entries::MOST_BYTES + 1;

// Room for any path.
const PATH: usize = 4096;

// The system's numbers for a name that is too long, and for bytes that are no text.
const TOO_LONG: i32 = 36;

const NO_TEXT: i32 = 84;

// What failed, a colon, and the system's words for the fault. It stands in fip and in vet: in a library it would need a promise, and of
// what is written to a handle there is none.
fn fail(rt: &(impl Eprint + Alloc), what: &str, e: Error) -> io::Result<()> {
    let text = format!(in rt.alloc(); "{e}")?;
    match text.split_once(" (os error ") {
        Some((words, _)) => eprintln!(rt; "{what}: {words}"),
        None => eprintln!(rt; "{what}: {text}"),
    }
}

fn give(rt: &(impl Print + Eprint + Alloc), bytes: &[u8]) -> io::Result<()> {
    match rt.write_all(bytes) {
        Ok(()) => Ok(()),
        Err(e) => fail(rt, "standard output", e),
    }
}

// The number of a refusal, and the rule that was broken.
fn refuse(rt: &impl Eprint, fault: Fault) -> io::Result<()> {
    let rule = match fault {
        Fault::WrongLength => "under 16 or over 65536 bytes",
        Fault::WrongHeader => "another name than aa640001, or serial number 0",
        Fault::WrongTable => "no whole end entry after at most 64 entries",
        Fault::SameIdentifiers => "an identifier stands twice",
        Fault::WrongPlace => "an image outside the package, or over the table or another image",
        Fault::NoImage => "no image has this identifier, or it is all zero",
        Fault::NoRoom => "over 65536 bytes, or over the space that is lent",
    };
    eprintln!(rt; "{:x}: {rule}", u64::from(fault))
}

fn list(rt: &(impl Print + Eprint + Alloc), pack: &[u8]) -> io::Result<()> {
    if let Err(fault) = fip_read::judge(pack) {
        return refuse(rt, fault);
    }
    let mut room = [0u8; fip_text::LIST];
    let n = fip_text::put_list(&mut room, fip_read::table(pack));
    give(rt, &room[..n])
}

fn show(rt: &(impl Print + Eprint + Alloc), pack: &[u8], id: &[u8; 16]) -> io::Result<()> {
    if let Err(fault) = fip_read::locate(pack, id) {
        return refuse(rt, fault);
    }
    give(rt, fip_read::find(pack, id))
}

fn main(rt: HostRuntime) -> io::Result<()> {
    let mut word = [0u8; fip_identifiers::TEXT];
    let w = rt.arg(2, &mut word).unwrap_or(0);
    let asked = fip_identifiers::identifier(&word[..w]);
    let is_list = arguments::has_word(&rt, 1) && !arguments::has_word(&rt, 2);
    let is_image = arguments::has_word(&rt, 2) && !arguments::has_word(&rt, 3) && asked.is_some();
    if !is_list && !is_image {
        return eprintln!(&rt;
            "usage: fip FILE, or fip FILE IDENTIFIER with its 32 lower-case digits grouped 8-4-4-4-12"
        );
    }
    let mut room = [0u8; PATH];
    let Ok(p) = rt.arg(1, &mut room) else {
        return fail(&rt, "fip", Error::from_raw_os_error(TOO_LONG));
    };
    let Ok(path) = str::from_utf8(&room[..p]) else {
        return fail(&rt, "fip", Error::from_raw_os_error(NO_TEXT));
    };
    let mut room = [0u8; SPACE];
    let pack = match input_whole::load(&rt, path, &mut room) {
        Ok(n) => &room[..n],
        Err(e) => return fail(&rt, path, e),
    };
    match asked {
        Some(id) => show(&rt, pack, &id),
        None => list(&rt, pack),
    }
}
