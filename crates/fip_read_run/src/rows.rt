// A row: numbers in hexadecimal, with a space between two, and behind a colon what is done. The numbers are how many images the
// package has, how many of its bytes are lent, what the identifier asked for begins with, and up to two places with the number that
// is then put there.
ghost use Rattle.std.specs.Prelude.{◌<◌};

use crate::packs;
use crate::packs::{Fields, Pack};
use std::io;

// The field behind the last is the text, which the space behind the colon begins.
const TEXT: usize = 7;

// A row as far as it is read, and the field that its next byte belongs to.
#[derive(Clone, Copy)]
struct Row {
    fields: Fields,
    at: usize,
}

// A number that is not given is all bits, which is no place.
const NONE: u64 = u64::MAX;

const FRESH: Row = Row {
    fields: [0, NONE, NONE, NONE, NONE, NONE, NONE],
    at: 0,
};

impl Row {
    // A space begins the next field.
    fn begin(&mut self)
        requires { self.old.at < 7 }
    {
        self.at += 1;
        if self.at < TEXT {
            self.fields[self.at] = 0;
        }
    }

    // One more digit, 0 to 9 or a to f.
    fn add(&mut self, b: u8)
        requires { self.old.at < 7 }
    {
        let digit = u64::from(b % 16 + b / 64 * 9);
        let field = &mut self.fields[self.at];
        *field = *field % 0x100000000000000 * 16 + digit;
    }
}

// Asks the first `length` bytes for the identifier that begins with a number and is zero else.
fn ask(rt: &impl Print, pack: &Pack, length: usize, n: u8) -> io::Result<()> {
    let mut id = [0u8; 16];
    id[0] = n;
    if let Some(lent) = pack.get(..length) {
        let status = fip_read::status(lent, &id);
        print!(rt; "{status:02x}")?;
    }
    Ok(())
}

fn play(rt: &impl Print, fields: Fields) -> io::Result<()> {
    let pack = packs::package_of(fields);
    print!(rt; ": ")?;
    ask(rt, &pack, fields[1] as usize, (fields[2] % 256) as u8)?;
    println!(rt)
}

fn step(rt: &impl Print, row: &mut Row, b: u8) -> io::Result<()> {
    match b {
        b'\n' => {
            play(rt, row.fields)?;
            *row = FRESH;
        }
        _ if TEXT <= row.at => rt.write_all(&[b])?,
        b':' => row.at = TEXT - 1,
        b' ' => row.begin(),
        _ => row.add(b),
    }
    Ok(())
}

pub(crate) fn play_all(rt: &impl Print, input: &[u8]) -> io::Result<()> {
    let mut row = FRESH;
    for b in input {
        step(rt, &mut row, *b)?;
    }
    Ok(())
}
