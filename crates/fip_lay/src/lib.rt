// Bytes, numbers and entries laid over other bytes. What would lie past the end of those is left out.
#![tactic(auto)]

ghost use Rattle.std.specs.Prelude.{◌≡◌, ◌+◌, ◌<◌, ◌++◌, get_or};
ghost use Rattle.tools.specs.Laid.{laid};
ghost use Rattle.fip_entries.specs.Entries.{entry};
ghost use Rattle.fip_lay.specs.Bytes.{spell, copied, entry_of};

// Byte i from a place on, or 0 past the end.
fn byte(s: &[u8], from: usize, i: usize) -> u8
    ensures { result ≡ get_or s.now (from + i) 0 }
{
    if s.len() <= from || s.len() - from <= i {
        return 0;
    }
    s[from + i]
}

// n bytes of s, from `from` on.
pub fn put_bytes(out: &mut [u8], at: usize, s: &[u8], from: usize, n: usize)
    ensures { out.new ≡ laid out.old at (copied s.now from n) }
{
    for i in 0..n.min(out.len().saturating_sub(at)) {
        out[at + i] = byte(s, from, i);
    }
}

// A number in n bytes, the lowest first.
pub fn put_number(out: &mut [u8], at: usize, v: u64, n: usize)
    ensures { out.new ≡ laid out.old at (spell n v) }
{
    let mut rest = v;
    for i in 0..n.min(out.len().saturating_sub(at)) {
        out[at + i] = (rest % 256) as u8;
        rest /= 256;
    }
}

// Three numbers in 8 bytes each, one behind the other.
fn put_numbers(out: &mut [u8], at: usize, a: u64, b: u64, c: u64)
    requires { at < 0x10000000000 }
    ensures { out.new ≡ laid out.old at (spell 8 a ++ (spell 8 b ++ spell 8 c)) }
{
    put_number(out, at, a, 8);
    put_number(out, at + 8, b, 8);
    put_number(out, at + 16, c, 8);
}

// Entry k of a table that begins at `start`: the identifier at `from` in s, and offset, size and flags. They are no struct, since its
// two callers have them as numbers of their own, and would only build it here.
pub fn put_entry(
    out: &mut [u8],
    start: u32,
    k: u32,
    s: &[u8],
    from: usize,
    offset: u64,
    size: u64,
    flags: u64,
)
    ensures { out.new ≡ laid out.old (start + entry k) (entry_of (copied s.now from 16) offset size flags) }
{
    let at = start as usize + fip_entries::ENTRY_SIZE * k as usize;
    put_bytes(out, at, s, from, 16);
    put_numbers(out, at + 16, offset, size, flags);
}
