// Vets a file of tables against what a world has mapped after the run on standard input: vet WORLD TABLES.
#![tactic(auto)]

use mapping::Lists;
use rules::ROOT;
use std::io;
use std::io::Error;
use std::rt::{Env, Files};
use vetting::{Fault, Refusal};

// One byte more than the numbers have at most, so that a longer file is seen to be one.
const SPACE: usize = 8 * table_files::MOST + 1;

// Room for any path.
const PATH: usize = 4096;

// The system's numbers for a name that is too long, and for bytes that are no text.
const TOO_LONG: i32 = 36;

const NO_TEXT: i32 = 84;

// A line on standard error.
fn say(rt: &impl Eprint, line: &str) -> io::Result<()> {
    eprint!(rt; "{line}")
}

// What failed, a colon, and the system's words for the fault. It stands in fip and in vet: in a library it would need a promise, and of
// what is written to a handle there is none.
fn fail(rt: &(impl Eprint + Alloc), what: &str, e: Error) -> io::Result<()> {
    let text = format!(in rt.alloc(); "{e}")?;
    match text.split_once(" (os error ") {
        Some((words, _)) => eprintln!(rt; "{what}: {words}"),
        None => eprintln!(rt; "{what}: {text}"),
    }
}

// The rule that was broken.
fn rule(fault: Fault) -> &'static str {
    match fault {
        Fault::TableOutside => "a table does not lie wholly in the numbers",
        Fault::Reserved => {
            "a reserved descriptor: bits 1 to 0, bit 10 clear, or a set bit with no meaning"
        }
        Fault::TableAgain => "a table is reached twice",
        Fault::Otherwise => "the list answers this address otherwise",
    }
}

// The status, the virtual address and the rule.
fn refuse(rt: &impl Eprint, refusal: Refusal) -> io::Result<()> {
    let Refusal { fault, at } = refusal;
    let status = u64::from(fault);
    let broken = rule(fault);
    eprintln!(rt; "{status:02x} {at:08x}: {broken}")
}

fn tell(rt: &(impl Print + Eprint + Alloc), vetted: Result<(), Refusal>) -> io::Result<()> {
    match vetted {
        Ok(()) => match rt.write_all(b"accepted\n") {
            Ok(()) => Ok(()),
            Err(e) => fail(rt, "standard output", e),
        },
        Err(refusal) => refuse(rt, refusal),
    }
}

// Vets the first n numbers.
fn vet_first(
    rt: &(impl Print + Eprint + Alloc),
    numbers: &[u64],
    n: usize,
    lists: &Lists,
    world: u64,
) -> io::Result<()> {
    if let Some(first) = numbers.get(..n) {
        tell(rt, vetting::vet(first, lists, world))?;
    }
    Ok(())
}

// Vets the n numbers in the bytes of a file.
fn judge(
    rt: &(impl Input + Print + Eprint + Alloc),
    bytes: &[u8],
    n: usize,
    world: u64,
) -> io::Result<()> {
    let Some(remains) = console::left(rt) else {
        return say(rt, "vet: the run could not be read to its end\n");
    };
    let mut numbers = [0u64; table_files::MOST];
    table_files::load(&mut numbers, bytes);
    vet_first(rt, &numbers, n, &remains.lists, world)
}

// A file is judged if it is a whole number of numbers, and not too many of them.
fn vet_file(
    rt: &(impl Files + Input + Print + Eprint + Alloc),
    path: &str,
    world: u64,
) -> io::Result<()> {
    let mut bytes = [0u8; SPACE];
    let n = match input_whole::load(rt, path, &mut bytes) {
        Ok(n) => n,
        Err(e) => return fail(rt, path, e),
    };
    if n == SPACE {
        return say(
            rt,
            "vet: the file has more than 32768 numbers, and is not judged\n",
        );
    }
    if n % 8 != 0 {
        return say(
            rt,
            "vet: the file is no whole number of 8-byte numbers, and is not judged\n",
        );
    }
    judge(rt, &bytes[..n], n / 8, world)
}

fn main(rt: HostRuntime) -> io::Result<()> {
    let mut word = [0u8; 8];
    let w = rt.arg(1, &mut word).unwrap_or(0);
    let world = arguments::world_of(&word[..w]);
    if !arguments::has_word(&rt, 2) || arguments::has_word(&rt, 3) || world == ROOT {
        return say(
            &rt,
            "usage: vet WORLD TABLES, where WORLD is secure, normal or realm; the run comes on standard input\n",
        );
    }
    let mut room = [0u8; PATH];
    let p = match rt.arg(2, &mut room) {
        Ok(p) => p,
        Err(_) => return fail(&rt, "vet", Error::from_raw_os_error(TOO_LONG)),
    };
    match str::from_utf8(&room[..p]) {
        Ok(path) => vet_file(&rt, path, world),
        Err(_) => fail(&rt, "vet", Error::from_raw_os_error(NO_TEXT)),
    }
}
