// What is saved for each core and world, in one table that the caller lends: eight registers and where the core started.
// Where there is no such core, world or number, reading gives 0 and writing changes nothing.
#![tactic(auto)]

ghost use Rattle.std.specs.Prelude.{◌≡◌, [], ◌∷◌, length};
ghost use Rattle.registers.specs.Registers.{start_of, count_of, number_in, shown_in, zeros, saved, shown_of, saving};

use rules::{MOST_CORES, WORLDS};

// How many numbers are saved for each core and world.
const EACH: usize = 9;

// Eight cores, four worlds of each, nine numbers of each.
pub type Saved = [u64; MOST_CORES as usize * WORLDS as usize * EACH];

// What an accepted call's frame shows of a world: its first four numbers.
#[derive(Clone, Copy)]
pub struct Shown {
    pub x0: u64,
    pub x1: u64,
    pub x2: u64,
    pub x3: u64,
}

// Nothing has been saved yet.
#[tactic(auto, using(crate::specs::Registers::zeros_made))]
pub fn fresh() -> Saved
    ensures { result ≡ zeros }
{
    [0; MOST_CORES as usize * WORLDS as usize * EACH]
}

#[tactic(auto, using(crate::specs::Registers::starts))]
fn start_of(core: u64, world: u64) -> Option<usize>
    ensures { result ≡ start_of core world }
{
    if MOST_CORES <= core {
        return None;
    }
    if WORLDS <= world {
        return None;
    }
    let share = (core * WORLDS + world) as usize;
    Some(share * EACH)
}

// A reader of the numbers of one core and world: number i of the part, 0 past its end.
#[tactic(auto, using(crate::specs::Registers::numbers_in))]
fn number_in(part: &[u64], i: u64) -> u64
    ensures { result ≡ number_in part.now i }
{
    let at = i as usize;
    if at < part.len() {
        return part[at];
    }
    0
}

// A reader of the numbers of one core and world: x0 to x3 of the part.
#[tactic(auto, unfolding(crate::specs::Registers::shown_in))]
fn shown_in(part: &[u64]) -> Shown
    ensures { result ≡ shown_in part.now }
{
    Shown {
        x0: number_in(part, 0),
        x1: number_in(part, 1),
        x2: number_in(part, 2),
        x3: number_in(part, 3),
    }
}

// x0 to x3 of one core and world.
pub fn show(t: &Saved, core: u64, world: u64) -> Shown
    ensures { result ≡ shown_of t.now core world }
{
    let Some(a) = start_of(core, world) else {
        return Shown {
            x0: 0,
            x1: 0,
            x2: 0,
            x3: 0,
        };
    };
    let s: &[u64] = t;
    let e = a + EACH;
    shown_in(&s[a..e])
}

// Number i of one core and world: x0 to x7, and in ninth place where the core started.
pub fn number(t: &Saved, core: u64, world: u64, i: u64) -> u64
    ensures { result ≡ saved t.now core world i }
{
    let Some(a) = start_of(core, world) else {
        return 0;
    };
    let s: &[u64] = t;
    let e = a + EACH;
    number_in(&s[a..e], i)
}

// How many of n numbers are written: nine at most.
#[tactic(auto, using(crate::specs::Registers::counts))]
fn count_of(n: usize) -> usize
    ensures { result ≡ count_of n }
{
    n.min(EACH)
}

// The numbers xs take the place of as many from x0 on; those past the ninth are ignored.
#[tactic(auto, using(crate::specs::Registers::saving_nowhere, crate::specs::Registers::writing_ends))]
pub fn save(t: &mut Saved, core: u64, world: u64, xs: &[u64])
    ensures { t.new ≡ saving t.old core world xs.now }
{
    let Some(a) = start_of(core, world) else {
        return;
    };
    // No copy_from_slice: the compiler calls memcpy for it, and whoever links the archive is asked for memset alone.
    for i in 0..count_of(xs.len()) {
        t[a + i] = xs[i];
    }
}

// That there are eight numbers.
fn see_eight(x: &[u64; 8]) -> u64
    ensures { length x.now ≡ 8 }
{
    let s: &[u64] = x;
    s[0]
}

// The eight numbers of a call. All are read before one is written, so that they are copied in pairs.
#[tactic(auto, using(crate::specs::Registers::saving_eight))]
pub fn save_eight(t: &mut Saved, core: u64, world: u64, x: &[u64; 8])
    ensures { t.new ≡ saving t.old core world x.now }
{
    see_eight(x);
    save(
        t,
        core,
        world,
        &[x[0], x[1], x[2], x[3], x[4], x[5], x[6], x[7]],
    );
}

// Each of the following names what it saves, and `save` already takes any number of them: a const parameter would add nothing.

// x0 alone: the answer of a call with one result.
pub fn save_one(t: &mut Saved, core: u64, world: u64, v: u64)
    ensures { t.new ≡ saving t.old core world (v ∷ []) }
{
    save(t, core, world, &[v]);
}

// x0 to x2: the answer of a call with three results.
pub fn save_three(t: &mut Saved, core: u64, world: u64, a: u64, b: u64, c: u64)
    ensures { t.new ≡ saving t.old core world (a ∷ b ∷ c ∷ []) }
{
    save(t, core, world, &[a, b, c]);
}

// All nine, as a core finds them that arrives: the context first, then seven zeros, then where it starts.
pub fn save_start(t: &mut Saved, core: u64, world: u64, context: u64, address: u64)
    ensures { t.new ≡ saving t.old core world (context ∷ 0 ∷ 0 ∷ 0 ∷ 0 ∷ 0 ∷ 0 ∷ 0 ∷ address ∷ []) }
{
    save(t, core, world, &[context, 0, 0, 0, 0, 0, 0, 0, address]);
}
