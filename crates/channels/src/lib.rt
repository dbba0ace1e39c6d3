// The two system calls: standard input is read behind bytes that wait, and bytes are written to standard output.
#![tactic(auto)]

ghost use Rattle.std.specs.Prelude.{◌≡◌, true, ◌≤◌, length};
ghost use Rattle.channels.specs.Filled.{Filled};

use std::io::Read;

// Reads behind the first `kept` bytes, which stay, and says how many bytes there are then: `kept` where the input has
// ended, or cannot be read, or there is no room behind them.
pub fn fill(rt: &impl Input, buf: &mut [u8], kept: usize) -> usize
    ensures { Filled buf.old kept result buf.new }
{
    if buf.len() <= kept {
        return kept;
    }
    let mut input = rt.reader();
    match input.read(&mut buf[kept..]) {
        Ok(got) => kept + got,
        Err(_) => kept,
    }
}

// Writes the first n bytes; whether there are so many and they could be written.
pub fn write(rt: &impl Print, text: &[u8], n: usize) -> bool
    ensures { result ≡ true → n ≤ length text.now }
{
    if text.len() < n {
        return false;
    }
    rt.write_all(&text[0..n]).is_ok()
}
