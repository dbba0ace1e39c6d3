// Numbers written in lower-case hexadecimal digits, where there is room for them.
#![tactic(auto)]

ghost use Rattle.std.specs.Prelude.{◌≡◌, [], ◌∷◌, ◌+◌, ◌<◌, ◌≤◌, length};
ghost use Rattle.tools.specs.Laid.{laid, put};
ghost use Rattle.hex_digits.specs.Hex.{sign_of, in_hex};
ghost use Rattle.hex_write.specs.Bytes.{low_bytes, four_of};
ghost use Rattle.hex_write.specs.Digits.{byte_text, bytes_text, four_text};

// The eight bytes of a number, the lowest first.
fn put_eight(out: &mut [u8], at: usize, v: u64)
    requires { at + 8 ≤ length out.old }
    ensures { out.new ≡ laid out.old at (low_bytes v 8) }
{
    let mut y = v;
    for i in 0..8 {
        out[at + i] = (y % 256) as u8;
        y /= 256;
    }
}

// The bytes of four numbers, the highest first.
fn bytes_of(x0: u64, x1: u64, x2: u64, x3: u64) -> [u8; 32]
    ensures { result ≡ four_of x0 x1 x2 x3 }
{
    let mut bs = [0u8; 32];
    put_eight(&mut bs, 0, hex_digits::swapped(x0));
    put_eight(&mut bs, 8, hex_digits::swapped(x1));
    put_eight(&mut bs, 16, hex_digits::swapped(x2));
    put_eight(&mut bs, 24, hex_digits::swapped(x3));
    bs
}

// The sign of a digit.
#[tactic(auto, using(hex_digits::specs::Hex::sign_low, hex_digits::specs::Hex::sign_high))]
fn sign(d: u8) -> u8
    requires { d < 16 }
    ensures { result ≡ sign_of d }
{
    if d < 10 { b'0' + d } else { b'a' + (d - 10) }
}

fn put_one(out: &mut [u8], at: usize, b: u8)
    requires { at + 1 ≤ length out.old }
    ensures { out.new ≡ laid out.old at (b ∷ []) }
{
    out[at] = b;
}

// The two signs of a byte.
fn put_pair(out: &mut [u8], at: usize, b: u8)
    requires { at + 2 ≤ length out.old }
    ensures { out.new ≡ laid out.old at (byte_text b) }
{
    put_one(out, at, sign(b / 16));
    put_one(out, at + 1, sign(b % 16));
}

// The signs of 32 bytes.
fn put_pairs(bs: &[u8; 32], out: &mut [u8], at: usize)
    requires { at + 64 ≤ length out.old }
    ensures { out.new ≡ laid out.old at (bytes_text bs.now 0 32) }
{
    for i in 0..32 {
        put_pair(out, at + i * 2, bs[i]);
    }
}

// The last two digits of a number. It returns the place behind them; where they do not fit, nothing is put and the place stays.
#[tactic(auto, using(crate::specs::Digits::byte_fits, crate::specs::Digits::byte_not))]
pub fn put_byte(out: &mut [u8], at: usize, x: u64) -> usize
    ensures { (result, out.new) ≡ put out.old at (in_hex 2 x) }
{
    if out.len() < 2 || out.len() - 2 < at {
        return at;
    }
    put_pair(out, at, (x % 256) as u8);
    at + 2
}

// Four numbers of sixteen digits, put or not in the same way. Each step treats all of their digits alike, so that the compiler takes
// many at a time.
pub fn put_numbers(out: &mut [u8], at: usize, x0: u64, x1: u64, x2: u64, x3: u64) -> usize
    ensures { (result, out.new) ≡ put out.old at (four_text x0 x1 x2 x3) }
{
    if out.len() < 64 || out.len() - 64 < at {
        return at;
    }
    let bs = bytes_of(x0, x1, x2, x3);
    put_pairs(&bs, out, at);
    at + 64
}

// The last n digits of a number, put or not in the same way.
pub fn put_digits(out: &mut [u8], at: usize, n: usize, x: u64) -> usize
    ensures { (result, out.new) ≡ put out.old at (in_hex n x) }
{
    if out.len() < n || out.len() - n < at {
        return at;
    }
    let mut y = x;
    for i in (0..n).rev() {
        out[at + i] = sign((y % 16) as u8);
        y /= 16;
    }
    at + n
}

// The newline, where there is room for it.
pub fn put_end(out: &mut [u8], at: usize) -> usize
    ensures { (result, out.new) ≡ put out.old at (10 ∷ []) }
{
    if at < out.len() {
        out[at] = 10;
        return at + 1;
    }
    at
}
