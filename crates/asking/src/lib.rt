// What a call asks, in words: a row of one table for each call, and the same sentence for every row.
#![tactic(auto, using(crate::specs::Forms::laws))]

ghost use Rattle.std.specs.Prelude.{◌≡◌, ◌<◌};
ghost use Rattle.asking.specs.Names.{named_from, named, counted};
ghost use Rattle.asking.specs.Forms.{key_at, row_at, form, register, valued, slot, slots, asked, done_word};

use judgements::names;
use phrases::{Piece, Sentence};
use words::names as w;
use words::names::{
    ASK_CALLS, ASK_KNOWN, ASK_OWNER, ASK_POWER, ASK_POWERS, ASK_STATE, ASK_WHERE, AT, BLANK, COMMA,
    CONTEXT, COUNT, FINISH, FROM, GIVE, GIVE_PAGE, LEVEL, MAP, OTHER, START, TAKE, TAKE_PAGE,
    TURN_OFF, UNMAP,
};

// What numbers have names for.
#[derive(Clone, Copy)]
pub enum Known {
    World,
    Handler,
    Attributes,
    Kind,
}

// What a call is told by: its key, and its arguments as it reads them. The fifth is Realm's finish's alone, and whole.
#[derive(Clone, Copy)]
pub struct Given {
    pub key: u64,
    pub x1: u64,
    pub x2: u64,
    pub x3: u64,
    pub x4: u64,
    pub x5: u64,
}

// How an argument is told: not at all, by its word alone, or behind its word in decimal digits, as an address, as a value, as
// so many pages, as so many bytes, or as attributes.
// No enum: `forms`, `row_at` and `valued` of specs/ have these numbers.
const NONE: u64 = 0;

const ALONE: u64 = 1;

const DECIMAL: u64 = 2;

const ADDRESS: u64 = 3;

const VALUE: u64 = 4;

const AS_PAGES: u64 = 5;

const AS_BYTES: u64 = 6;

const AS_ATTRS: u64 = 7;

// How many rows there are before that of all other calls.
const ROWS: usize = 20;

// The call of each row. With its form in one struct, the proofs of `key_at` and `row_at` didn't close.
const KEYS: [u64; ROWS + 1] = [
    names::VERSION as u64,
    names::FEATURES as u64,
    names::POWER_VERSION as u64,
    names::CORE_OFF as u64,
    names::CORE_START as u64,
    names::CORE_START_WIDE as u64,
    names::CORE_STATE as u64,
    names::CORE_STATE_WIDE as u64,
    names::POWER_FEATURES as u64,
    names::GRANULE_TO_REALM as u64,
    names::GRANULE_TO_NORMAL as u64,
    names::TAKE_PAGES as u64,
    names::GIVE_PAGES as u64,
    names::OWNS_PAGE as u64,
    names::MAP_PAGES as u64,
    names::UNMAP_PAGES as u64,
    names::WHERE_LEADS as u64,
    names::COUNT_ON as u64,
    names::REALM_FINISH as u64,
    names::SECURE_FINISH as u64,
    0,
];

// For each of up to five arguments its word, its register, and how it is told. Register 0 holds the key.
const FORMS: [[u64; 15]; ROWS + 1] = [
    [ASK_CALLS, 0, ALONE, 0, 0, 0, 0, 0, 0, 0, 0, 0, 0, 0, 0],
    [ASK_KNOWN, 1, ADDRESS, 0, 0, 0, 0, 0, 0, 0, 0, 0, 0, 0, 0],
    [ASK_POWER, 0, ALONE, 0, 0, 0, 0, 0, 0, 0, 0, 0, 0, 0, 0],
    [TURN_OFF, 0, ALONE, 0, 0, 0, 0, 0, 0, 0, 0, 0, 0, 0, 0],
    [
        START, 1, DECIMAL, AT, 2, ADDRESS, CONTEXT, 3, VALUE, 0, 0, 0, 0, 0, 0,
    ],
    [
        START, 1, DECIMAL, AT, 2, ADDRESS, CONTEXT, 3, VALUE, 0, 0, 0, 0, 0, 0,
    ],
    [
        ASK_STATE, 1, DECIMAL, LEVEL, 2, DECIMAL, 0, 0, 0, 0, 0, 0, 0, 0, 0,
    ],
    [
        ASK_STATE, 1, DECIMAL, LEVEL, 2, DECIMAL, 0, 0, 0, 0, 0, 0, 0, 0, 0,
    ],
    [ASK_POWERS, 1, ADDRESS, 0, 0, 0, 0, 0, 0, 0, 0, 0, 0, 0, 0],
    [TAKE_PAGE, 1, ADDRESS, 0, 0, 0, 0, 0, 0, 0, 0, 0, 0, 0, 0],
    [GIVE_PAGE, 1, ADDRESS, 0, 0, 0, 0, 0, 0, 0, 0, 0, 0, 0, 0],
    [
        TAKE, 2, AS_PAGES, FROM, 1, ADDRESS, 0, 0, 0, 0, 0, 0, 0, 0, 0,
    ],
    [
        GIVE, 2, AS_PAGES, FROM, 1, ADDRESS, 0, 0, 0, 0, 0, 0, 0, 0, 0,
    ],
    [ASK_OWNER, 1, ADDRESS, 0, 0, 0, 0, 0, 0, 0, 0, 0, 0, 0, 0],
    [
        MAP, 1, ADDRESS, AT, 2, ADDRESS, COMMA, 3, AS_BYTES, COMMA, 4, AS_ATTRS, 0, 0, 0,
    ],
    [
        UNMAP, 1, ADDRESS, COMMA, 2, AS_BYTES, 0, 0, 0, 0, 0, 0, 0, 0, 0,
    ],
    [ASK_WHERE, 1, ADDRESS, 0, 0, 0, 0, 0, 0, 0, 0, 0, 0, 0, 0],
    [COUNT, 0, ALONE, 0, 0, 0, 0, 0, 0, 0, 0, 0, 0, 0, 0],
    [
        FINISH, 1, VALUE, BLANK, 2, VALUE, BLANK, 3, VALUE, BLANK, 4, VALUE, BLANK, 5, VALUE,
    ],
    [
        FINISH, 1, VALUE, BLANK, 2, VALUE, BLANK, 3, VALUE, BLANK, 4, VALUE, 0, 0, 0,
    ],
    [
        OTHER, 0, ADDRESS, CONTEXT, 1, VALUE, BLANK, 2, VALUE, BLANK, 3, VALUE, 0, 0, 0,
    ],
];

// A number by its name, where it is one of the first `count`, and else behind the word for such numbers.
fn name_from(s: Sentence, first: u64, count: u64, other: u64, x: u64) -> Sentence
    requires { (first < 256) × (count < 256) }
    ensures { result ≡ named_from s first count other x }
{
    if x < count {
        s.with(Piece::Word(first + x))
    } else {
        s.with(Piece::Word(other)).with(Piece::Number(x))
    }
}

// A number by its name.
pub fn name(s: Sentence, k: Known, x: u64) -> Sentence
    ensures { result ≡ named s k x }
{
    match k {
        Known::World => name_from(s, w::ROOT, 4, w::NUMBER, x),
        Known::Handler => name_from(s, w::ARCHITECTURE, 4, w::HANDLER, x),
        Known::Attributes => name_from(s, w::READ_ONLY, 3, w::ATTRIBUTES, x),
        Known::Kind => name_from(s, w::YIELDING, 2, w::KIND, x),
    }
}

// So many of something.
pub fn count(s: Sentence, x: u64, one: u64, many: u64) -> Sentence
    ensures { result ≡ counted s x one many }
{
    let word = if x == 1 { one } else { many };
    s.with(Piece::Number(x)).with(Piece::Word(word))
}

// The call of row k.
fn key_at(k: usize) -> u64
    requires { k < 21 }
    ensures { result ≡ key_at k }
{
    KEYS[k]
}

// Row k of the table.
fn row_at(k: usize) -> [u64; 15]
    requires { k < 21 }
    ensures { result ≡ row_at k }
{
    FORMS[k]
}

// The row of a key, or that of all other calls.
fn form(key: u64) -> [u64; 15]
    ensures { result ≡ form key }
{
    for k in 0..ROWS {
        if key_at(k) == key {
            return row_at(k);
        }
    }
    row_at(ROWS)
}

// What stands in a register.
#[tactic(auto, using(crate::specs::Forms::laws), unfolding(crate::specs::Forms::register, rules::specs::Choice::pick))]
fn register(i: u64, g: Given) -> u64
    ensures { result ≡ register i g }
{
    match i {
        0 => g.key,
        1 => g.x1,
        2 => g.x2,
        3 => g.x3,
        4 => g.x4,
        _ => g.x5,
    }
}

// An argument as its row has it told.
#[tactic(auto, using(crate::specs::Forms::laws), unfolding(crate::specs::Forms::valued, rules::specs::Choice::pick))]
fn value(s: Sentence, how: u64, x: u64) -> Sentence
    ensures { result ≡ valued s how x }
{
    match how {
        ALONE => s,
        DECIMAL => s.with(Piece::Number(x)),
        ADDRESS => s.with(Piece::Hex(x)),
        VALUE => s.with(Piece::Value(x)),
        AS_PAGES => count(s, x, w::PAGE, w::PAGES),
        AS_BYTES => count(s, x, w::BYTE, w::BYTES),
        _ => name(s, Known::Attributes, x),
    }
}

// One argument, behind its word.
fn argument(s: Sentence, word: u64, i: u64, how: u64, g: Given) -> Sentence
    ensures { result ≡ slot s word i how g }
{
    if how == NONE {
        return s;
    }
    let x = register(i, g);
    value(s.with(Piece::Word(word)), how, x)
}

// All arguments of a row.
fn arguments(s: Sentence, row: [u64; 15], g: Given) -> Sentence
    ensures { result ≡ slots s row g }
{
    let s1 = argument(s, row[0], row[1], row[2], g);
    let s2 = argument(s1, row[3], row[4], row[5], g);
    let s3 = argument(s2, row[6], row[7], row[8], g);
    let s4 = argument(s3, row[9], row[10], row[11], g);
    argument(s4, row[12], row[13], row[14], g)
}

// What a call with these eight numbers asks: by the row of its key, or where it was handed over by that of all other calls.
pub fn ask(s: Sentence, handed: bool, x: &[u64; 8]) -> Sentence
    ensures { result ≡ asked s handed x.now }
{
    let q = judging::read_call(x);
    let a = q.args;
    let g = Given {
        key: q.key as u64,
        x1: a.x1,
        x2: a.x2,
        x3: a.x3,
        x4: a.x4,
        x5: x[5],
    };
    if handed {
        return arguments(s, row_at(ROWS), g);
    }
    arguments(s, form(g.key), g)
}

// How such a call is told to be granted: of a question whether a call is known, that it is.
pub fn done_word(x: &[u64; 8]) -> u64
    ensures { result ≡ done_word x.now }
{
    let q = judging::read_call(x);
    match q.key {
        names::FEATURES | names::POWER_FEATURES => w::KNOWN,
        _ => w::GRANTED,
    }
}
