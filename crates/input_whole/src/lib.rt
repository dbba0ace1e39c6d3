// An input or a file read whole, as far as there is room for it.
#![tactic(auto)]

ghost use Rattle.std.specs.Prelude.{◌≤◌, length, IfOk};

use std::io::{Error, Read};
use std::rt::Files;
use std::{fs, io};

// The system's number for no fault.
const NO_FAULT: i32 = 0;

// Reads until the buffer is full or the input ends: how many bytes there are then.
pub fn read_full(input: &mut impl Read, buf: &mut [u8]) -> io::Result<usize>
    ensures { IfOk result (λ n. n ≤ length buf.new) }
{
    let mut done = 0;

    // no plainer: no range and no iterator counts this, since each step is as long as what a read gave
    while done < buf.len() {
        let n = input.read(&mut buf[done..])?;
        if n == 0 {
            return Ok(done);
        }
        done += n;
    }
    Ok(done)
}

// Whether n bytes are all of the file, or fill the room.
fn is_read(file: &mut impl Read, n: usize, room: usize) -> io::Result<bool> {
    if n == room {
        return Ok(true);
    }
    let mut more = [0u8; 1];
    let got = file.read(&mut more)?;
    Ok(got == 0)
}

// Reads a file, or as much of it as there is room for: how many bytes there are then.
pub fn load(rt: &impl Files, path: &str, bytes: &mut [u8]) -> io::Result<usize>
    ensures { IfOk result (λ n. n ≤ length bytes.new) }
{
    let mut file = fs::open(rt, path)?;
    let n = read_full(&mut file, bytes)?;
    if is_read(&mut file, n, bytes.len())? {
        return Ok(n);
    }
    Err(Error::from_raw_os_error(NO_FAULT))
}
