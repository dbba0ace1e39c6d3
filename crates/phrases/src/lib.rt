// Sentences: short rows of pieces by value, and the line of text that each makes.
#![tactic(auto)]

ghost use Rattle.std.specs.Prelude.{◌≡◌, ◌+◌, ◌-◌, ◌≤◌, length};
ghost use Rattle.tools.specs.Laid.{put};
ghost use Rattle.phrases.specs.Sentence.{blank, ◌▹◌};
ghost use Rattle.phrases.specs.Text.{indent, right_text, hex_text, value_text, gap_text, piece_text, in_columns, text_of, line_text, told};

// A piece of a sentence.
#[derive(Clone, Copy)]
pub enum Piece {
    // a word, by its number in the table of words
    Word(u64),
    // a number in decimal digits
    Number(u64),
    // the same, with blanks in front of it up to four signs
    Right(u64),
    // the number of a line, with blanks in front of it up to six signs; columns are counted as if it had six
    Line(u64),
    // an address in hexadecimal digits: eight, or twelve or sixteen where it needs more
    Hex(u64),
    // a value in hexadecimal digits: two or four, or those of an address where it needs more
    Value(u64),
    // blanks up to this column of the line, and at least one
    Column(u64),
}

// The most pieces of a sentence, the most signs of a piece, and the most of a line.
const PIECES: usize = 32;

const SIGNS: usize = 96;

pub const LONGEST: usize = PIECES * SIGNS + 1;

// A sentence: its pieces, and how many it has.
#[derive(Clone, Copy)]
pub struct Sentence {
    pub pieces: [Piece; 32],
    pub count: u64,
}

impl Sentence {
    // A sentence of no pieces.
    pub fn blank() -> Sentence
        ensures { result ≡ blank }
    {
        Sentence {
            pieces: [Piece::Word(0); 32],
            count: 0,
        }
    }

    // The sentence with a piece more; a full one stays as it is.
    pub fn with(mut self, p: Piece) -> Sentence
        ensures { result ≡ (self ▹ p) }
    {
        let n = self.count as usize;
        if n < PIECES {
            self.pieces[n] = p;
            self.count += 1;
        }
        self
    }
}

// How many blanks stand before a number that takes six signs or more.
#[tactic(auto, unfolding(crate::specs::Text::indent, rules::specs::Choice::pick))]
fn indent(x: u64) -> usize
    ensures { result ≡ indent x }
{
    match x {
        0..=9 => 5,
        10..=99 => 4,
        100..=999 => 3,
        1000..=9999 => 2,
        10000..=99999 => 1,
        _ => 0,
    }
}

fn put_right(out: &mut [u8], at: usize, less: usize, x: u64) -> usize
    requires { at + 96 ≤ length out.old }
    ensures { (result, out.new) ≡ put out.old at (right_text less x) }
{
    let a = writing::put_blanks(out, at, indent(x).saturating_sub(less));
    writing::put_decimal(out, a, x)
}

// An address in eight digits, or in twelve or sixteen where it needs more.
#[tactic(auto, unfolding(crate::specs::Text::hex_text, rules::specs::Choice::pick))]
pub fn put_hex(out: &mut [u8], at: usize, x: u64) -> usize
    ensures { (result, out.new) ≡ put out.old at (hex_text x) }
{
    if x < 0x100000000 {
        return hex_write::put_digits(out, at, 8, x);
    }
    if x < 0x1000000000000 {
        return hex_write::put_digits(out, at, 12, x);
    }
    hex_write::put_digits(out, at, 16, x)
}

// A value in two or four digits, or in those of an address where it needs more.
#[tactic(auto, unfolding(crate::specs::Text::value_text, rules::specs::Choice::pick))]
fn put_value(out: &mut [u8], at: usize, x: u64) -> usize
    ensures { (result, out.new) ≡ put out.old at (value_text x) }
{
    if x < 0x100 {
        return hex_write::put_digits(out, at, 2, x);
    }
    if x < 0x10000 {
        return hex_write::put_digits(out, at, 4, x);
    }
    put_hex(out, at, x)
}

#[tactic(auto, unfolding(crate::specs::Text::gap_text, rules::specs::Choice::pick))]
fn put_gap(out: &mut [u8], at: usize, width: usize, column: u64) -> usize
    ensures { (result, out.new) ≡ put out.old at (gap_text width column) }
{
    let c = column as usize;
    let blanks = if width < c { c - width } else { 1 };
    writing::put_blanks(out, at, blanks)
}

// A piece, behind so many signs that count for the columns.
fn put_piece(out: &mut [u8], at: usize, width: usize, p: Piece) -> usize
    requires { at + 96 ≤ length out.old }
    ensures { (result, out.new) ≡ put out.old at (piece_text width p) }
{
    match p {
        Piece::Word(k) => words::put_word(out, at, k),
        Piece::Number(x) => writing::put_decimal(out, at, x),
        Piece::Right(x) => put_right(out, at, 2, x),
        Piece::Line(x) => put_right(out, at, 0, x),
        Piece::Hex(x) => put_hex(out, at, x),
        Piece::Value(x) => put_value(out, at, x),
        Piece::Column(c) => put_gap(out, at, width, c),
    }
}

// How many signs of a piece of so many count for the columns behind it: of the number of a line six.
fn in_columns(p: Piece, signs: usize) -> usize
    ensures { result ≡ in_columns p signs }
{
    match p {
        Piece::Line(_) => 6,
        _ => signs,
    }
}

// The pieces, one behind the other.
fn put_pieces(out: &mut [u8], at: usize, s: Sentence) -> usize
    requires { at + 3072 ≤ length out.old }
    ensures { (result, out.new) ≡ put out.old at (text_of s) }
{
    let n = (s.count as usize).min(PIECES);
    let mut here = at;
    let mut width: usize = 0;
    for p in &s.pieces[..n] {
        let next = put_piece(out, here, width, *p);
        width += in_columns(*p, next - here);
        here = next;
    }
    here
}

// The line of a sentence, with its newline. It returns the place behind it; where there is no room for the longest line,
// nothing is put and the place stays.
pub fn put_line(out: &mut [u8], at: usize, s: Sentence) -> usize
    ensures { (result, out.new) ≡ told out.old at (line_text s) }
{
    if out.len() < LONGEST || out.len() - LONGEST < at {
        return at;
    }
    let e = put_pieces(out, at, s);
    hex_write::put_end(out, e)
}
