// One mapping by value: what may be asked of it, and what may be wrong with it by itself.
#![tactic(auto)]

ghost use Rattle.std.specs.Prelude.{◌≡◌, ◌+◌, ◌*◌, ltb};
ghost use Rattle.rules.specs.Sizes.{page_size, virtual_limit};
ghost use Rattle.ranges.specs.Ranges.{within, meet, inside, level};
ghost use Rattle.ranges.specs.Mapping.{exact, on_pages, meets, inside_or_around, nested, clashes, preferred, malformed, beyond};
ghost use Rattle.ranges.specs.Question.{asks_free, answers, clashing};

use pages::Window;
use rules::{LAST_ATTRIBUTES, PAGE_SIZE, VIRTUAL_LIMIT};

// A range of virtual addresses, the physical addresses that it leads to, and what may be done there.
#[derive(Clone, Copy)]
pub struct Mapping {
    pub virt: u64,
    pub phys: u64,
    pub size: u64,
    pub attr: u64,
}

// What may be asked of a place. The definition of what a place answers, and with it `found`, is said of questions.
#[derive(Clone, Copy)]
pub enum Question {
    // whether it is free
    Free,
    // whether it is held, with exactly this start and size
    Exact { virt: u64, size: u64 },
    // whether it is held, and its physical range meets a run of pages
    OnPages { start: u64, count: u64 },
    // whether it is held, and its physical range meets this one
    OnRange { start: u64, size: u64 },
    // whether it is held, and its virtual range meets this one
    Touches { start: u64, size: u64 },
}

// Whether x is one of the `size` numbers from `start` on. No sum is made, so none wraps.
#[tactic(auto, using(crate::specs::Ranges::ranges))]
fn is_within(x: u64, start: u64, size: u64) -> bool
    ensures { result ≡ within x start size }
{
    start <= x && x - start < size
}

// The same of `count` pages from `start` on.
#[tactic(auto, using(crate::specs::Ranges::ranges))]
fn is_on_pages(x: u64, start: u64, count: u64) -> bool
    ensures { result ≡ within x start (count * page_size) }
{
    start <= x && (x - start) / PAGE_SIZE < count
}

// Whether the s numbers from a on and the u numbers from b on meet. The first test is for speed: of two ranges, that which starts
// first decides.
#[tactic(auto, using(crate::specs::Ranges::meets_later, crate::specs::Ranges::ors), unfolding(crate::specs::Ranges::meet))]
fn do_meet(a: u64, s: u64, b: u64, u: u64) -> bool
    ensures { result ≡ meet a s b u }
{
    if b < a {
        return is_within(a, b, u);
    }
    is_within(b, a, s) || is_within(a, b, u)
}

// Whether the u numbers from b on are all among the s numbers from a on. No sum is made, so none wraps.
#[tactic(auto, using(crate::specs::Ranges::insides))]
fn is_inside(b: u64, u: u64, a: u64, s: u64) -> bool
    ensures { result ≡ inside b u a s }
{
    a <= b && b - a <= s && u <= s - (b - a)
}

// Whether v less p is y less q, which may be negative. No sum is made, so none wraps.
#[tactic(auto, using(crate::specs::Ranges::levels))]
fn is_level(v: u64, p: u64, y: u64, q: u64) -> bool
    ensures { result ≡ level v p y q }
{
    if v <= y {
        p <= q && y - v == q - p
    } else {
        q <= p && v - y == p - q
    }
}

impl Question {
    // Whether a free place answers yes.
    #[tactic(auto, unfolding(crate::specs::Question::asks_free))]
    fn asks_free(self) -> bool
        ensures { result ≡ asks_free self }
    {
        matches!(self, Question::Free)
    }
}

impl Mapping {
    // Whether it has exactly this start and size.
    #[tactic(auto, using(rules::specs::Tests::tests), unfolding(crate::specs::Mapping::exact))]
    pub fn is_exact(self, virt: u64, size: u64) -> bool
        ensures { result ≡ exact virt size self }
    {
        self.virt == virt && self.size == size
    }

    // Whether its physical range meets the run of pages.
    #[tactic(auto, using(crate::specs::Ranges::ors), unfolding(crate::specs::Mapping::on_pages, crate::specs::Ranges::meet))]
    fn is_on_run(self, start: u64, count: u64) -> bool
        ensures { result ≡ on_pages start count self }
    {
        is_on_pages(self.phys, start, count) || is_within(start, self.phys, self.size)
    }

    // Whether the two meet, in virtual or in physical addresses.
    #[tactic(auto, using(crate::specs::Ranges::ors), unfolding(crate::specs::Mapping::meets))]
    fn does_meet(self, m: Mapping) -> bool
        ensures { result ≡ meets self m }
    {
        do_meet(self.virt, self.size, m.virt, m.size)
            || do_meet(self.phys, self.size, m.phys, m.size)
    }

    // Whether it lies wholly inside the other, or around it.
    #[tactic(auto, using(crate::specs::Ranges::ors), unfolding(crate::specs::Mapping::inside_or_around))]
    fn is_in_or_around(self, m: Mapping) -> bool
        ensures { result ≡ inside_or_around self m }
    {
        is_inside(self.virt, self.size, m.virt, m.size)
            || is_inside(m.virt, m.size, self.virt, self.size)
    }

    // Whether one of the two is a window in the other.
    #[tactic(auto, using(crate::specs::Ranges::ands), unfolding(crate::specs::Mapping::nested))]
    fn is_nested(self, m: Mapping) -> bool
        ensures { result ≡ nested self m }
    {
        is_level(self.virt, self.phys, m.virt, m.phys)
            && !m.is_exact(self.virt, self.size)
            && self.is_in_or_around(m)
    }

    // Whether the two may not stand beside each other.
    #[tactic(auto, using(crate::specs::Ranges::ands), unfolding(crate::specs::Mapping::clashes))]
    fn does_clash(self, m: Mapping) -> bool
        ensures { result ≡ clashes self m }
    {
        self.does_meet(m) && !self.is_nested(m)
    }

    // Whether this place is held, and the mapping may not stand beside it. It is no question, since with it a search for any other
    // question would be too long to be compiled as one piece.
    #[tactic(auto, using(crate::specs::Question::clashings))]
    pub fn is_clashing(self, m: Mapping) -> bool
        ensures { result ≡ clashing m self }
    {
        self.size != 0 && m.does_clash(self)
    }

    // This one where it holds the address and is no larger than the best so far, else that: one of size 0 is nobody's.
    #[tactic(auto, using(crate::specs::Mapping::preferences))]
    pub fn preferred(self, best: Mapping, address: u64) -> Mapping
        ensures { result ≡ preferred address self best }
    {
        if is_within(address, self.virt, self.size) && (best.size == 0 || self.size <= best.size) {
            return self;
        }
        best
    }

    // Whether one of the three is unaligned, or the attributes are none of the three that there are.
    #[tactic(auto, using(rules::specs::Tests::tests), unfolding(crate::specs::Mapping::malformed))]
    pub fn is_malformed(self) -> bool
        ensures { result ≡ malformed self }
    {
        self.virt % PAGE_SIZE != 0
            || self.phys % PAGE_SIZE != 0
            || self.size % PAGE_SIZE != 0
            || LAST_ATTRIBUTES < self.attr
    }

    // Whether its virtual end is above the limit. No sum is made, so none wraps.
    #[tactic(auto, using(crate::specs::Ranges::ranges))]
    fn is_past_end(self) -> bool
        ensures { result ≡ ltb virtual_limit (self.virt + self.size) }
    {
        VIRTUAL_LIMIT < self.size || VIRTUAL_LIMIT - self.size < self.virt
    }

    // Whether it reaches past the window, or past the last virtual address.
    #[tactic(auto, using(crate::specs::Mapping::page_tests))]
    pub fn is_beyond(self, w: Window) -> bool
        ensures { result ≡ beyond w self }
    {
        let Some(_) = w.run_of(self.phys, self.size / PAGE_SIZE) else {
            return true;
        };
        self.is_past_end()
    }

    // What a place answers to a question.
    #[tactic(auto, using(crate::specs::Question::answers_free, crate::specs::Question::answers_held, crate::specs::Question::asking))]
    pub fn answers(self, q: Question) -> bool
        ensures { result ≡ answers q self }
    {
        if self.size == 0 {
            return q.asks_free();
        }
        match q {
            Question::Free => false,
            Question::Exact { virt, size } => self.is_exact(virt, size),
            Question::OnPages { start, count } => self.is_on_run(start, count),
            Question::OnRange { start, size } => do_meet(start, size, self.phys, self.size),
            Question::Touches { start, size } => do_meet(start, size, self.virt, self.size),
        }
    }
}
