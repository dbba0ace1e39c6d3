// Numbers in bytes, the lowest byte first. Past the end of the bytes every byte counts as 0.
ghost use Rattle.std.specs.Prelude.{◌≡◌, ◌+◌, ◌<◌, ltb, get_or};
ghost use Rattle.fip_entries.specs.Numbers.{two, four, eight};

pub(crate) fn byte(s: &[u8], at: usize) -> u64
    ensures { (result ≡ get_or s.now at 0) × (result < 256) }
{
    u64::from(s.get(at).copied().unwrap_or(0))
}

// Two, four and eight bytes, and not one function over their number: each is two of the one before, as the definitions are, and a loop
// over the bytes would be no plainer.
#[tactic(auto, unfolding(crate::specs::Numbers::two))]
fn two(s: &[u8], at: usize) -> u64
    requires { at < 0x40000000000 }
    ensures { (result ≡ two s.now at) × (result < 0x10000) }
{
    byte(s, at) + 256 * byte(s, at + 1)
}

#[tactic(auto, unfolding(crate::specs::Numbers::four))]
fn four(s: &[u8], at: usize) -> u64
    requires { at < 0x30000000000 }
    ensures { (result ≡ four s.now at) × (result < 0x100000000) }
{
    two(s, at) + 0x10000 * two(s, at + 2)
}

// The number in the four bytes at a place.
pub fn number(s: &[u8], at: u32) -> u64
    ensures { result ≡ four s.now at }
{
    four(s, at as usize)
}

#[tactic(auto, unfolding(crate::specs::Numbers::eight))]
pub(crate) fn eight(s: &[u8], at: usize) -> u64
    requires { at < 0x20000000000 }
    ensures { result ≡ eight s.now at }
{
    four(s, at) + 0x100000000 * four(s, at + 4)
}

// The number in the eight bytes at a place.
pub fn long_number(s: &[u8], at: u32) -> u64
    ensures { result ≡ eight s.now at }
{
    eight(s, at as usize)
}

// Whether a is below b + c, a sum that may not fit.
pub(crate) fn is_below(a: u64, b: u64, c: u64) -> bool
    ensures { result ≡ ltb a (b + c) }
{
    a < b || a - b < c
}
