// Lower-case hexadecimal digits, read one by one from any bytes, and what reading and writing many of them share.
#![tactic(auto)]

ghost use Rattle.std.specs.Prelude.{◌≡◌, ◌+◌, ◌*◌, ◌^◌, ◌<◌, ◌≤◌, min, get_or};
ghost use Rattle.hex_digits.specs.Hex.{digit_of, all_digits, value, number};
ghost use Rattle.hex_digits.specs.Read.{byte_of};
ghost use Rattle.hex_digits.specs.Swap.{swap_two, swap_four, swap};

// A digit's value, and 16 for any other byte: no Option, since `digit_of` is a number, and every number of a line is built on it.
#[tactic(auto, using(crate::specs::Hex::digit_below, crate::specs::Hex::digit_low, crate::specs::Hex::digit_between, crate::specs::Hex::digit_high, crate::specs::Hex::digit_above))]
pub fn digit(b: u8) -> u8
    ensures { result ≡ digit_of b }
{
    match b {
        b'0'..=b'9' => b - b'0',
        b'a'..=b'f' => b - b'a' + 10,
        _ => 16,
    }
}

// Whether each sign of a line is a digit.
pub fn all_digits(line: &[u8]) -> bool
    ensures { result ≡ all_digits line.now }
{
    for sign in line {
        if 15 < digit(*sign) {
            return false;
        }
    }
    true
}

// The digit at a place; past the end there is none.
fn digit_at(line: &[u8], at: usize) -> u64
    ensures { (result ≡ digit_of (get_or line.now at 0)) × (result ≤ 16) }
{
    if at < line.len() {
        return u64::from(digit(line[at]));
    }
    16
}

// Byte k of a line.
pub fn byte_at(line: &[u8], k: u8) -> Option<u64>
    ensures { result ≡ byte_of line.now k }
{
    let at = usize::from(k) * 2;
    let high = digit_at(line, at);
    if high == 16 {
        return None;
    }
    let low = digit_at(line, at + 1);
    if low == 16 {
        return None;
    }
    Some(high * 16 + low)
}

// The number that n signs of a line stand for, of sixteen at most, from a place on. A sign that is no digit counts nothing.
fn read(line: &[u8], at: usize, n: usize) -> u64
    requires few { n ≤ 16 }
    requires in_reach { at + n < 2 ^ 64 }
    ensures { result ≡ value line.now at n }
{
    let mut x: u64 = 0;
    for i in 0..n {
        x = x * 16 + digit_at(line, at + i) % 16;
    }
    x
}

// The same from any place on, and past the end no sign counts.
#[tactic(auto, using(crate::specs::Read::value_past))]
pub fn value(line: &[u8], at: usize, n: usize) -> u64
    ensures { result ≡ value line.now at (min n 16) }
{
    if line.len() <= at {
        return 0;
    }
    read(line, at, n.min(16))
}

// The number in n bytes of a line, of eight at most, from byte k on, in the same way.
pub fn number(line: &[u8], k: u8, n: u8) -> u64
    ensures { result ≡ number line.now k (min n 8) }
{
    read(line, usize::from(k) * 2, usize::from(n.min(8)) * 2)
}

// Two bytes in the other order.
fn swapped_two(v: u64) -> u64
    requires { v < 0x10000 }
    ensures { (result ≡ swap_two v) × (result < 0x10000) }
{
    v % 256 * 0x100 + v / 0x100
}

// Four of them.
fn swapped_four(v: u64) -> u64
    requires { v < 0x100000000 }
    ensures { (result ≡ swap_four v) × (result < 0x100000000) }
{
    swapped_two(v % 0x10000) * 0x10000 + swapped_two(v / 0x10000)
}

// A number with its eight bytes in the other order.
pub fn swapped(v: u64) -> u64
    ensures { result ≡ swap v }
{
    swapped_four(v % 0x100000000) * 0x100000000 + swapped_four(v / 0x100000000)
}
