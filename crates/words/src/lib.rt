// The one table of words that sentences are made of.
#![tactic(auto)]

ghost use Rattle.std.specs.Prelude.{◌≡◌, ◌-◌, ◌≤◌, ◌<◌, take, drop};
ghost use Rattle.tools.specs.Laid.{put};
ghost use Rattle.words.specs.Words.{word_text};
ghost use Rattle.words.specs.Joined.{text, begin};

pub mod names;

// How many words there are.
const WORDS: u64 = 112;

// The words, one behind the other. A table of `&str` was tried: its proof did not close, since no fact gives a proof the words
// that stand in a constant table.
const TEXT: [u8; 1480] = *b"\
    Root\
    Secure\
    Normal\
    Realm\
    architecture\
    board\
    standard\
    trusted system\
    read only\
    writable\
    executable\
    yielding\
    fast\
    accepted\
    accepted: ON in Normal\
    not 1 to 66 pairs of digits 0 to 9 and a to f\
    of an unknown kind, or a wrong length\
    refused 71\
    refused 72\
    refused 73: wrong time\
    refused 74: out of range\
    refused 74: no such core\
    refused 75: has a handler\
    refused 75: named before\
    refused 75: core not ON\
    refused 75: core not pending\
    not served\
    invalid argument\
    not the giver's\
    already ON\
    already pending\
    asks for no page\
    a page is mapped\
    bad address\
    has 16 mappings\
    overlaps another\
    not its page\
    leads nowhere\
    not well formed\
    no such mapping\
    past the limits\
    refused -\
    granted\
    answered 0, known\
    answered \
    answered version 1.3\
    answered version 1.1\
    answered 0, ON\
    answered 1, OFF\
    answered 2, pending\
    answered 1, yes\
    answered 0, no\
    to \
    \x20runs now\
    the core is OFF now\
    tell the version of calls\
    tell whether this call is known: \
    tell the version of core power\
    turn this core OFF\
    start core \
    tell the state of core \
    tell whether core power knows \
    take the page at \
    give back the page at \
    take \
    give back \
    tell whether it owns \
    map \
    unmap \
    tell where this address leads: \
    count the cores that are ON\
    finish with \
    call \
    \x20from \
    \x20at \
    \x20with \
    \x20at level \
    , \
    \x20\
    \x20page\
    \x20pages\
    \x20byte\
    \x20bytes\
    attributes \
    set-up\
    no frame\
    core \
    :\
    window of \
    \x20core\
    \x20cores\
    \x20calls, owners \
    \x20to \
    : \
    handler \
    type \
    \x20from page \
    \x20for \
    owner \
    arrives\
    how things stand after line \
    \x20ON, \
    \x20pending, to start at \
    \x20OFF\
    line \
    unnamed\
    maps \
    no mappings\
    no window\
    \x20lies outside the window\
    . Root, s Secure, n Normal, r Realm\
    ; what is mapped in capitals\
";

// Where each of them begins, and in the end where the last one ends.
const BEGINS: [usize; 113] = [
    0, 4, 10, 16, 21, 33, 38, 46, 60, 69, 77, 87, 95, 99, 107, 129, 174, 211, 221, 231, 253, 277,
    301, 326, 350, 373, 401, 411, 427, 442, 452, 467, 483, 499, 510, 525, 541, 553, 566, 581, 596,
    611, 620, 627, 644, 653, 673, 693, 707, 722, 741, 756, 770, 773, 782, 801, 826, 859, 889, 907,
    918, 941, 971, 988, 1010, 1015, 1025, 1046, 1050, 1056, 1087, 1114, 1126, 1131, 1137, 1141,
    1147, 1157, 1159, 1160, 1165, 1171, 1176, 1182, 1193, 1199, 1207, 1212, 1213, 1223, 1228, 1234,
    1249, 1253, 1255, 1263, 1268, 1279, 1284, 1290, 1297, 1325, 1330, 1352, 1356, 1361, 1368, 1373,
    1384, 1393, 1417, 1452, 1480,
];

// Where word k begins.
fn begin(k: usize) -> usize
    requires { k < 113 }
    ensures { result ≡ begin k }
{
    BEGINS[k]
}

// The text from one place on up to another.
fn put_part(out: &mut [u8], at: usize, from: usize, to: usize) -> usize
    requires { (from ≤ to) × (to ≤ 1480) }
    ensures { (result, out.new) ≡ put out.old at (take (to - from) (drop from text)) }
{
    writing::put_text(out, at, &TEXT[from..to])
}

// A word by its number, nothing past the last. It returns the place behind it; where it does not fit, nothing is put and the
// place stays.
pub fn put_word(out: &mut [u8], at: usize, k: u64) -> usize
    ensures { (result, out.new) ≡ put out.old at (word_text k) }
{
    if k < WORDS {
        let i = k as usize;
        return put_part(out, at, begin(i), begin(i + 1));
    }
    at
}
