// Converts owners from bytes to marks and back. Each line of the input is a conversion: a name and a colon, p for bytes to numbers or
// u for numbers to bytes with the page count, the bytes, and the numbers:
//
// seventeen pages of Normal's and one of Realm's: p12 11*2,3 2*0,7
//
// Numbers are hexadecimal, and COUNT*VALUE stands for so many equal ones; 0*0 is an empty space. A line of the output has the name,
// the status and what it stands for, and both spaces as they are then. There is room for 65536 bytes of input, and for 4352 places
// in each space; a line with more, or of another kind, is no conversion.
#![tactic(auto)]

mod reading;
mod spaces;

use converting::Fault;
use reading::{Conversion, Way};
use signs::Signs;
use spaces::{ROOM, Space};
use std::io;

fn convert(c: Conversion, bytes: &mut [u8], numbers: &mut [u64]) -> Result<(), Fault> {
    match c.way {
        Way::Pack => converting::pack(c.pages, bytes, numbers),
        Way::Unpack => converting::unpack(c.pages, numbers, bytes),
    }
}

// The status, and what it stands for.
fn say_status(rt: &impl Print, outcome: Result<(), Fault>) -> io::Result<()> {
    let (number, words) = match outcome {
        Ok(()) => (0, "converted"),
        Err(fault) => (u64::from(fault), words_of(fault)),
    };
    print!(rt; ": {number:02x} {words}; ")
}

fn words_of(fault: Fault) -> &'static str {
    match fault {
        Fault::Cramped => "not 1 to 4096 pages, or a space that is too small",
        Fault::Stray => "a byte or mark that is no owner, or padding that is not 0",
    }
}

fn play(rt: &impl Print, c: Conversion, read: &Space, numbers: &mut Space) -> io::Result<()> {
    let mut places = [0u8; ROOM];
    let bytes = spaces::narrow(read.values(), &mut places);
    say_status(rt, convert(c, bytes, numbers.values_mut()))?;
    spaces::say(rt, bytes)?;
    rt.write_all(b"; ")?;
    spaces::say(rt, numbers.values())?;
    rt.write_all(b"\n")
}

fn run(rt: &impl Print, text: &[u8]) -> io::Result<()> {
    let mut bytes = Space::new();
    let mut numbers = Space::new();
    let mut text = Signs { left: text };
    while !text.left.is_empty() {
        rt.write_all(text.through(b':'))?;
        match reading::take_conversion(&mut text, &mut bytes, &mut numbers) {
            Some(conversion) => play(rt, conversion, &bytes, &mut numbers)?,
            None => rt.write_all(b": no conversion\n")?,
        }
    }
    Ok(())
}

fn main(rt: HostRuntime) -> io::Result<()> {
    let mut input = [0u8; 65536];
    let n = input_whole::read_full(&mut rt.reader(), &mut input)?;
    run(&rt, &input[..n])
}
