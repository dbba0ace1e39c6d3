// 128 hexadecimal digits read at once, as eight numbers, from any bytes.
#![tactic(auto)]

ghost use Rattle.std.specs.Prelude.{◌≡◌, ◌+◌, ◌*◌, ◌<◌, ◌≤◌, ◌&&◌, length, nat_lt};
ghost use Rattle.hex_digits.specs.Rows.{Row};
ghost use Rattle.hex_read.specs.Marks.{mark_of};
ghost use Rattle.hex_read.specs.Packed.{Small, pair_at, pair_of, byte_at, packed, low_two, low_four, low_first, word_at, word_of};
ghost use Rattle.hex_read.specs.Many.{Digits, eight};

// A digit's value, and more than 15 for any other byte.
fn mark(b: u8) -> u8
    ensures { result ≡ mark_of b }
{
    if b < 58 {
        return std::num::wrapping_sub_u8(b, 48);
    }
    if b < 97 {
        return 255;
    }
    b - 87
}

// The larger of two marks: a digit's where both are.
fn larger(a: u8, b: u8) -> u8
    ensures { nat_lt result 16 ≡ (nat_lt a 16 && nat_lt b 16) }
{
    if a < b {
        return b;
    }
    a
}

// The marks of 128 signs, and the largest of them.
#[derive(Drop)]
struct Marks {
    most: u8,
    each: [u8; 128],
}

// Those of the signs from a place on.
fn marks_of(line: &[u8], at: usize) -> Marks
    requires { at + 128 ≤ length line.now }
    ensures { Digits line.now at result.most result.each }
{
    let mut most: u8 = 0;
    let mut each = [0u8; 128];
    for i in 0..128 {
        let d = mark(line[at + i]);
        each[i] = d;
        most = larger(most, d);
    }
    Marks { most, each }
}

// Two digits side by side, the first in the low byte.
fn pair(a: u8, b: u8) -> u16
    ensures { result ≡ pair_of a b }
{
    u16::from(a) + u16::from(b) * 256
}

// 128 digits as pairs.
fn pairs(ds: &[u8; 128]) -> [u16; 64]
    ensures { Row (pair_at ds.now) 64 result }
{
    let mut ws = [0u16; 64];
    for i in 0..64 {
        ws[i] = pair(ds[i * 2], ds[i * 2 + 1]);
    }
    ws
}

// The byte of two digits, the first the higher.
fn pack(w: u16) -> u8
    ensures { result ≡ packed w }
{
    (w % 16 * 16 + w / 256 % 16) as u8
}

// The bytes of 64 pairs.
fn bytes(ws: &[u16; 64]) -> [u8; 64]
    ensures { Row (byte_at ws.now) 64 result }
{
    let mut bs = [0u8; 64];
    for i in 0..64 {
        bs[i] = pack(ws[i]);
    }
    bs
}

fn octet(b: u8) -> u64
    ensures { (result ≡ b) × (result < 256) }
{
    u64::from(b)
}

// Two bytes as a number, the lowest first.
fn low_two(bs: &[u8], at: usize) -> u64
    requires { at + 2 ≤ length bs.now }
    ensures { (result ≡ low_two bs.now at) × (result < 0x10000) }
{
    octet(bs[at]) + octet(bs[at + 1]) * 0x100
}

// Four of them.
fn low_four(bs: &[u8], at: usize) -> u64
    requires { at + 4 ≤ length bs.now }
    ensures { (result ≡ low_four bs.now at) × (result < 0x100000000) }
{
    low_two(bs, at) + low_two(bs, at + 2) * 0x10000
}

// Eight of them.
fn low_first(bs: &[u8], at: usize) -> u64
    requires { at + 8 ≤ length bs.now }
    ensures { result ≡ low_first bs.now at }
{
    low_four(bs, at) + low_four(bs, at + 4) * 0x100000000
}

// The numbers of 64 bytes, the highest byte of each first.
fn words(bs: &[u8; 64]) -> [u64; 8]
    ensures { Row (word_at bs.now) 8 result }
{
    let mut ys = [0u64; 8];
    for i in 0..8 {
        ys[i] = hex_digits::swapped(low_first(bs, i * 8));
    }
    ys
}

// The eight numbers of 128 digits. Each step treats all of them alike, so that the compiler takes many at a time.
fn join(ds: &[u8; 128]) -> [u64; 8]
    requires { Small ds.now }
    ensures { Row (word_of ds.now) 8 result }
{
    let ws = pairs(ds);
    let bs = bytes(&ws);
    words(&bs)
}

// The eight numbers of the 128 signs from byte k on, and whether these are digits; where they are not, the numbers lent are left.
// No Option: `eight` says both of the numbers that are lent.
pub fn numbers(line: &[u8], k: u8, xs: &mut [u64; 8]) -> bool
    ensures { (result, xs.new) ≡ eight line.now k xs.old }
{
    let at = usize::from(k) * 2;
    if line.len() < at + 128 {
        return false;
    }
    let m = marks_of(line, at);
    if 15 < m.most {
        return false;
    }
    let ds = m.each;
    *xs = join(&ds);
    true
}
