// Identifiers as text: sixteen bytes in lower-case digits, grouped 8-4-4-4-12.
#![tactic(auto)]

ghost use Rattle.std.specs.Prelude.{◌≡◌, ◌+◌, ◌*◌, ◌≤◌, ◌<◌, length, get_or};
ghost use Rattle.fip_entries.specs.Entries.{entry};
ghost use Rattle.tools.specs.Laid.{laid};
ghost use Rattle.tools.specs.Search.{all};
ghost use Rattle.fip_identifiers.specs.Identifiers.{run, id_text, agree, place_of, byte_of, bytes_of, identified};

// The size of an identifier's text.
pub const TEXT: usize = 36;

fn byte(s: &[u8], at: usize) -> u8
    ensures { result ≡ get_or s.now at 0 }
{
    s.get(at).copied().unwrap_or(0)
}

// The digits of n bytes.
fn put_run(out: &mut [u8], at: usize, t: &[u8], from: usize, n: usize)
    requires { (at + n * 2 ≤ length out.old) × (from + n < 0x20000000000) }
    ensures { out.new ≡ laid out.old at (run t.now from n) }
{
    for i in 0..n {
        hex_write::put_byte(out, at + i * 2, u64::from(byte(t, from + i)));
    }
}

// The text of the identifier at a place. What is not written over are the dashes.
fn text_at(t: &[u8], from: usize) -> [u8; 36]
    requires { from < 0x10000000000 }
    ensures { result ≡ id_text t.now from }
{
    let mut text = [b'-'; TEXT];
    put_run(&mut text, 0, t, from, 4);
    put_run(&mut text, 9, t, from + 4, 2);
    put_run(&mut text, 14, t, from + 6, 2);
    put_run(&mut text, 19, t, from + 8, 2);
    put_run(&mut text, 24, t, from + 10, 6);
    text
}

// The text of entry k's identifier.
pub fn text_of(t: &[u8], k: u32) -> [u8; 36]
    ensures { result ≡ id_text t.now (entry k) }
{
    text_at(t, fip_entries::entry(k))
}

// Whether the first n bytes of both are the same.
pub fn is_alike(s: &[u8], t: &[u8], n: usize) -> bool
    ensures { result ≡ all (agree s.now t.now) 0 n }
{
    for i in 0..n {
        if byte(s, i) != byte(t, i) {
            return false;
        }
    }
    true
}

// The byte that two digits stand for.
fn byte_of(text: &[u8], at: usize) -> u8
    requires { at < 0x10000000000 }
    ensures { result ≡ byte_of text.now at }
{
    let high = u64::from(hex_digits::digit(byte(text, at)));
    let low = u64::from(hex_digits::digit(byte(text, at + 1)));
    ((high * 16 + low) % 256) as u8
}

// Where the digits of byte i stand: behind those of the bytes before it, and behind their dashes.
fn place_of(i: usize) -> usize
    requires { i < 16 }
    ensures { (result ≡ place_of i) × (result < 36) }
{
    match i {
        0..=3 => i * 2,
        4..=5 => i * 2 + 1,
        6..=7 => i * 2 + 2,
        8..=9 => i * 2 + 3,
        _ => i * 2 + 4,
    }
}

// The bytes that stand where an identifier's digits are.
fn bytes_of(text: &[u8]) -> [u8; 16]
    ensures { result ≡ bytes_of text.now }
{
    let mut bytes = [0u8; 16];
    for (i, b) in bytes.iter_mut().enumerate() {
        *b = byte_of(text, place_of(i));
    }
    bytes
}

// The identifier that a text is: the bytes that it names, where it is their text.
pub fn identifier(text: &[u8]) -> Option<[u8; 16]>
    ensures { result ≡ identified text.now }
{
    if text.len() != TEXT {
        return None;
    }
    let bytes = bytes_of(text);
    let own = text_at(&bytes, 0);
    is_alike(text, &own, TEXT).then_some(bytes)
}
