// What somebody wants to see of a run, from the word behind the program's name: `map`, or an address in hexadecimal digits,
// with or without 0x.
#![tactic(auto)]

ghost use Rattle.std.specs.Prelude.{◌≡◌};
ghost use Rattle.wanted.specs.Wanted.{is_map, digits_in, address_by, wanted_by};

#[derive(Clone, Copy)]
pub enum Wanted {
    Map,
    Page(u64),
}

// An address in digits, where it is one.
#[tactic(auto, unfolding(crate::specs::Wanted::address_by, rules::specs::Choice::pick))]
fn address_by(digits: &[u8]) -> Option<Wanted>
    ensures { result ≡ address_by digits.now }
{
    let n = digits.len();
    if n == 0 || 16 < n || !hex_digits::all_digits(digits) {
        return None;
    }
    Some(Wanted::Page(hex_digits::value(digits, 0, n)))
}

#[tactic(auto, unfolding(crate::specs::Wanted::is_map))]
fn is_map(word: &[u8]) -> bool
    ensures { result ≡ is_map word.now }
{
    matches!(word, b"map")
}

// What stands behind 0x, where a word begins with it, and else the word.
#[tactic(auto, unfolding(crate::specs::Wanted::has_prefix, rules::specs::Choice::pick))]
fn digits_of(word: &[u8]) -> &[u8]
    ensures { result.now ≡ digits_in word.now }
{
    match word {
        [b'0', b'x', digits @ ..] => digits,
        _ => word,
    }
}

// What a word asks for, where it means something.
#[tactic(auto, unfolding(crate::specs::Wanted::wanted_by, rules::specs::Choice::pick))]
pub fn wanted_by(word: &[u8]) -> Option<Wanted>
    ensures { result ≡ wanted_by word.now }
{
    if is_map(word) {
        return Some(Wanted::Map);
    }
    address_by(digits_of(word))
}
