// How many accepted calls each world made, by their answers.
#![tactic(auto)]

ghost use Rattle.std.specs.Prelude.{◌≡◌};
ghost use Rattle.tools.specs.Store.{write};
ghost use Rattle.tallies.specs.Rows.{answer_at, row_of};
ghost use Rattle.tallies.specs.Tally.{nothing, count_at, over, one_more, noted};

// At most so many calls are counted.
const MOST: u64 = 1000000;

// Answers have rows: 0 to 8, the two versions, and what lies at most 34 below 2^32 and below 2^64.
pub const ROWS: u64 = 79;

const SMALL: u64 = 9;

const POWER_VERSION: u64 = 0x10001;

const VERSION: u64 = 0x10003;

const SHORT: u64 = 11;

const SHORTS: u64 = 0xFFFFFFDE;

const LONG: u64 = 45;

const LONGS: u64 = 0xFFFFFFFFFFFFFFDE;

const WORLDS: u64 = rules::REALM + 1;

// A count for each world and row; behind them how many were counted, and whether one came too many.
pub const TOTAL: u64 = WORLDS * ROWS;

const OVER: u64 = TOTAL + 1;

// One row of numbers and no struct: `count_at`, `total` and `over` read a list, and the theorems on a report speak of it.
pub type Tally = [u64; 318];

// Nothing counted.
pub fn fresh() -> Tally
    ensures { result ≡ nothing }
{
    [0; 318]
}

// The number at a place, 0 past the last: the counts come first, by world and then by row.
pub fn count_at(t: &Tally, i: u64) -> u64
    ensures { result ≡ count_at t.now i }
{
    if i < 318 {
        return t[i as usize];
    }
    0
}

fn put(t: &mut Tally, i: u64, n: u64)
    ensures { t.new ≡ write 318 t.old i n }
{
    if i < 318 {
        t[i as usize] = n;
    }
}

// The row of an answer; past the last where it has none.
fn row_of(x: u64) -> u64
    ensures { result ≡ row_of x }
{
    if x < SMALL {
        return x;
    }
    if x == POWER_VERSION {
        return 9;
    }
    if x == VERSION {
        return 10;
    }
    if x < SHORTS {
        return ROWS;
    }
    if x < 0x100000000 {
        return x - SHORTS + SHORT;
    }
    if x < LONGS {
        return ROWS;
    }
    x - LONGS + LONG
}

fn one_more(n: u64) -> u64
    ensures { result ≡ one_more n }
{
    if n < MOST {
        return n + 1;
    }
    n
}

// The answer of a row, 0 past the last.
pub fn answer_at(r: u64) -> u64
    ensures { result ≡ answer_at r }
{
    if r < SMALL {
        return r;
    }
    if r < 10 {
        return POWER_VERSION;
    }
    if r < SHORT {
        return VERSION;
    }
    if r < LONG {
        return SHORTS + (r - SHORT);
    }
    if r < ROWS {
        return LONGS + (r - LONG);
    }
    0
}

// Whether a call came after the last that is counted.
pub fn is_over(t: &Tally) -> bool
    ensures { result ≡ over t.now }
{
    0 < count_at(t, OVER)
}

// A call more, of a world, with its answer.
pub fn note(t: &mut Tally, world: u64, x: u64)
    ensures { t.new ≡ noted t.old world x }
{
    let all = count_at(t, TOTAL);
    if MOST <= all {
        put(t, OVER, 1);
        return;
    }
    let row = row_of(x);
    if WORLDS <= world || ROWS <= row {
        return;
    }
    let i = world * ROWS + row;
    let n = count_at(t, i);
    put(t, i, one_more(n));
    let m = count_at(t, TOTAL);
    put(t, TOTAL, one_more(m));
}
