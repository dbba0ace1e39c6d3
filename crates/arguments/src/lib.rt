// The words by which a program over tables is asked: a world's name, and a number in decimal digits.
#![tactic(auto)]

ghost use Rattle.std.specs.Prelude.{◌≡◌, ◌≤◌, ◌<◌, MatchOption};
ghost use Rattle.arguments.specs.Words.{is_word, world_of, digit_of, capped, counted};

use rules::{NORMAL, REALM, ROOT, SECURE};
use std::env::FillError;
use std::rt::Env;

// Every number from this on counts as this, 2^32.
const MOST: u64 = 0x100000000;

// Whether the word is this name, sign for sign.
fn is_word(word: &[u8], name: &[u8]) -> bool
    ensures { result ≡ is_word word.now name.now }
{
    word == name
}

// The world of this name: Secure, Normal or Realm, and Root where the word is none of theirs: no Option, since `world_of` says Root.
pub fn world_of(word: &[u8]) -> u64
    ensures { result ≡ world_of word.now }
{
    if is_word(word, b"secure") {
        return SECURE;
    }
    if is_word(word, b"normal") {
        return NORMAL;
    }
    if is_word(word, b"realm") {
        return REALM;
    }
    ROOT
}

// A digit's worth, if the sign is one.
#[tactic(auto, using(crate::specs::Words::digit_here, crate::specs::Words::digit_low, crate::specs::Words::digit_high))]
fn digit_of(sign: u8) -> Option<u64>
    ensures { MatchOption result (digit_of sign ≡ 10) (λ d. (d ≡ digit_of sign) × (d < 10)) }
{
    match sign {
        b'0'..=b'9' => Some(u64::from(sign - b'0')),
        _ => None,
    }
}

// A number with one digit more.
#[tactic(auto, using(crate::specs::Words::capped_is))]
fn with_digit(n: u64, d: u64) -> u64
    requires { (n ≤ 4294967296) × (d ≤ 10) }
    ensures { (result ≡ capped n d) × (result ≤ 4294967296) }
{
    (10 * n + d).min(MOST)
}

// The number that the word's decimal digits stand for, if it is made of them.
pub fn count_of(word: &[u8]) -> Option<u64>
    ensures { result ≡ counted word.now }
{
    if word.is_empty() {
        return None;
    }
    let mut n: u64 = 0;
    for sign in word {
        let d = digit_of(*sign)?;
        n = with_digit(n, d);
    }
    Some(n)
}

// Whether the program was started with so many words behind its name, or more.
pub fn has_word(rt: &impl Env, i: usize) -> bool {
    let mut word = [0u8; 1];
    !matches!(rt.arg(i, &mut word), Err(FillError::NotPresent))
}
