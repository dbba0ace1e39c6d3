// Pieces of text, each put where there is room for it: bytes as they stand, blanks, and numbers in decimal digits.
#![tactic(auto)]

ghost use Rattle.std.specs.Prelude.{◌≡◌, length};
ghost use Rattle.tools.specs.Laid.{put};
ghost use Rattle.writing.specs.Decimal.{decimal_text};
ghost use Rattle.writing.specs.Put.{blanks};

// The most blanks that are put at once.
const BLANKS: usize = 96;

// Bytes as they stand. It returns the place behind them; where they do not fit, nothing is put and the place stays.
pub fn put_text(out: &mut [u8], at: usize, text: &[u8]) -> usize
    ensures { (result, out.new) ≡ put out.old at text.now }
{
    let n = text.len();
    if out.len() < n || out.len() - n < at {
        return at;
    }
    out[at..at + n].copy_from_slice(text);
    at + n
}

// So many blanks, or the most that there can be, put or not in the same way.
pub fn put_blanks(out: &mut [u8], at: usize, n: usize) -> usize
    ensures { (result, out.new) ≡ put out.old at (blanks n) }
{
    let row = [b' '; BLANKS];
    put_text(out, at, &row[..n.min(BLANKS)])
}

// A number in decimal digits, put or not in the same way.
pub fn put_decimal(out: &mut [u8], at: usize, x: u64) -> usize
    ensures { (result, out.new) ≡ put out.old at (decimal_text x) }
{
    let mut digits = [0u8; 20];
    let n = io::decimal(x, &mut digits);
    put_text(out, at, &digits[..n])
}
