// Vets tables on both sides of each rule. The input is words, read one after the other: numbers in hexadecimal digits, each with a
// space behind it, and letters that act on the last four of them.
//
// COUNT o: so many numbers are lent, all of them 0, and nothing is mapped
// COUNT l: so many are lent, and the rest stays
// VIRTUAL PHYSICAL SIZE ATTRIBUTES m: a mapping
// PLACE NUMBER n: a number at a place
// v NAME: the tables are vetted, and a line of the output has what came of it, and the rest of this line
#![tactic(auto)]

use mapping::{Lists, Mapping};
use rules::NORMAL;
use std::io;
use table_files::{MOST, Numbers};
use vetting::Refusal;

// The last four numbers, the one that is being read, how many are lent, and whether the rest of the line is a name.
#[derive(Clone, Copy)]
struct Desk {
    last: [u64; 4],
    value: u64,
    lent: u64,
    named: bool,
}

fn say(rt: &impl Print, text: &[u8]) -> io::Result<()> {
    rt.write_all(text)
}

fn tell(rt: &impl Print, vetted: Result<(), Refusal>) -> io::Result<()> {
    match vetted {
        Ok(()) => say(rt, b"accepted"),
        Err(Refusal { fault, at }) => {
            let status = u64::from(fault);
            print!(rt; "{status:02x} {at:08x}")
        }
    }
}

// The first numbers against what Normal has mapped.
fn vet_first(rt: &impl Print, numbers: &[u64], lent: u64, lists: &Lists) -> io::Result<()> {
    if let Some(first) = numbers.get(..lent as usize) {
        tell(rt, vetting::vet(first, lists, NORMAL))?;
    }
    Ok(())
}

fn put(numbers: &mut Numbers, at: u64, v: u64) {
    let i = at as usize;
    if i < MOST {
        numbers[i] = v;
    }
}

impl Desk {
    // A digit, or the space behind a number.
    fn read(&mut self, sign: u8) {
        let d = u64::from(hex_digits::digit(sign));
        if d < 16 {
            self.value = self.value % 0x1000000000000000 * 16 + d;
        }
        if sign == b' ' {
            let [_, b, c, d] = self.last;
            self.last = [b, c, d, self.value];
            self.value = 0;
        }
    }

    // What a letter asks for.
    fn act(
        &mut self,
        rt: &impl Print,
        sign: u8,
        numbers: &mut Numbers,
        lists: &mut Lists,
    ) -> io::Result<()> {
        let [virt, phys, size, attr] = self.last;
        match sign {
            b'o' => {
                table_files::load(numbers, b"");
                *lists = mapping::fresh();
                self.lent = attr;
            }
            b'l' => {
                self.lent = attr;
            }
            b'm' => {
                let m = Mapping {
                    virt,
                    phys,
                    size,
                    attr,
                };
                mapping::hold(lists, NORMAL, m);
            }
            b'n' => put(numbers, size, attr),
            b'v' => {
                vet_first(rt, numbers, self.lent, lists)?;
                self.named = true;
            }
            _ => self.read(sign),
        }
        Ok(())
    }

    fn take(
        &mut self,
        rt: &impl Print,
        sign: u8,
        numbers: &mut Numbers,
        lists: &mut Lists,
    ) -> io::Result<()> {
        if self.named {
            say(rt, &[sign])?;
            self.named = sign != b'\n';
            return Ok(());
        }
        self.act(rt, sign, numbers, lists)
    }
}

fn play(rt: &impl Print, text: &[u8], numbers: &mut Numbers, lists: &mut Lists) -> io::Result<()> {
    let mut desk = Desk {
        last: [0; 4],
        value: 0,
        lent: 0,
        named: false,
    };
    for sign in text {
        desk.take(rt, *sign, numbers, lists)?;
    }
    Ok(())
}

fn main(rt: HostRuntime) -> io::Result<()> {
    let mut buf = [0u8; 65536];
    let n = input_whole::read_full(&mut rt.reader(), &mut buf)?;
    let mut numbers = [0u64; MOST];
    let mut lists = mapping::fresh();
    play(&rt, &buf[..n], &mut numbers, &mut lists)
}
