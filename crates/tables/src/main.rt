// Builds page tables: tables WORLD [NUMBERS], with a run of frames on standard input. Standard output: the tables of what the world
// has mapped after it, each number in 8 bytes, the lowest first.
#![tactic(auto)]

ghost use Rattle.std.specs.Prelude.{◌≤◌};

use spelling::MOST_NUMBERS;
use std::io;
use std::rt::Env;
use tables_console::Fault;

// A line on standard error.
fn say(rt: &impl Eprint, line: &str) -> io::Result<()> {
    eprint!(rt; "{line}")
}

// How many numbers are lent. More than the tables of any run take make no difference.
fn room_of(n: u64) -> usize
    ensures { result ≤ 22528 }
{
    n.min(MOST_NUMBERS as u64) as usize
}

fn build(rt: &(impl Input + Print + Eprint), world: u64, room: usize) -> io::Result<()>
    requires { room ≤ 22528 }
{
    let mut numbers = [0u64; MOST_NUMBERS];
    match tables_console::make(rt, &mut numbers[..room], world) {
        Err(Fault::Unread) => say(rt, "the run could not be read to its end\n"),
        Err(Fault::NoRoom) => say(rt, "88: the tables do not fit into so many numbers\n"),
        Ok(count) => {
            let mut bytes = [0u8; 180224];
            if !tables_console::tell(rt, &numbers, &mut bytes, count) {
                return say(rt, "standard output: the tables could not be written\n");
            }
            Ok(())
        }
    }
}

fn main(rt: HostRuntime) -> io::Result<()> {
    let mut name = [0u8; 8];
    let n = rt.arg(1, &mut name).unwrap_or(0);
    let world = arguments::world_of(&name[..n]);
    let mut digits = [0u8; 32];
    let d = rt.arg(2, &mut digits).unwrap_or(0);
    let count = arguments::count_of(&digits[..d]);
    let room = match (
        arguments::has_word(&rt, 1),
        arguments::has_word(&rt, 2),
        arguments::has_word(&rt, 3),
    ) {
        (true, false, _) => Some(MOST_NUMBERS),
        (_, true, false) => count.map(room_of),
        _ => None,
    };
    match room {
        Some(room) if world != rules::ROOT => build(&rt, world, room),
        _ => say(
            &rt,
            "usage: tables secure|normal|realm [NUMBERS], with a run of frames on standard input\n",
        ),
    }
}
