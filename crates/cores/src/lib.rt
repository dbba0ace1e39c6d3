// One core's power and its turn, by value, and the tables that hold them for eight cores. The definitions stand in specs/.
#![tactic(auto)]

ghost use Rattle.std.specs.Prelude.{◌≡◌, ◌≤◌};
ghost use Rattle.cores.specs.Power.{is_on, is_pending, put, started, gone_off, arrived, arrival_of, handed, finished, entered};
ghost use Rattle.cores.specs.Count.{bit};
ghost use Rattle.cores.specs.Cores.{power, with_power, first_powers, turn, with_turn, first_turns, on_count, on_mask};

use rules::{MOST_CORES, NORMAL, ROOT};

// One core's power. The start address and the context are those of the call that made it pending.
#[derive(Clone, Copy)]
pub struct Power {
    // OFF, PENDING or ON. A number and no enum, since a lent table may hold any, and the law `absent` of who calls speaks of it.
    pub state: u64,
    pub start: u64,
    pub context: u64,
}

impl Power {
    pub const OFF: u64 = 0;

    pub const PENDING: u64 = 1;

    pub const ON: u64 = 2;

    #[tactic(auto, unfolding(crate::specs::Power::is_on))]
    pub fn is_on(self) -> bool
        ensures { result ≡ is_on self }
    {
        self.state == Power::ON
    }

    #[tactic(auto, unfolding(crate::specs::Power::is_pending))]
    pub fn is_pending(self) -> bool
        ensures { result ≡ is_pending self }
    {
        self.state == Power::PENDING
    }

    // The same start address and context, in another state.
    fn put(self, state: u64) -> Power
        ensures { result ≡ put self state }
    {
        Power { state, ..self }
    }

    // The start of a core: it becomes pending, unless it is ON or pending already.
    #[tactic(auto, using(rules::specs::Tests::judgements, rules::specs::Tests::tests), unfolding(crate::specs::Power::started))]
    pub fn started(self, start: u64, context: u64) -> Power
        ensures { result ≡ started self start context }
    {
        if self.is_on() || self.is_pending() {
            return self;
        }
        Power {
            state: Power::PENDING,
            start,
            context,
        }
    }

    // The core goes OFF, if it is ON.
    #[tactic(auto, using(rules::specs::Tests::judgements), unfolding(crate::specs::Power::gone_off))]
    pub fn gone_off(self) -> Power
        ensures { result ≡ gone_off self }
    {
        if self.is_on() {
            return self.put(Power::OFF);
        }
        self
    }

    // The core comes ON, if it is pending.
    #[tactic(auto, using(rules::specs::Tests::judgements), unfolding(crate::specs::Power::arrived))]
    pub fn arrived(self) -> Power
        ensures { result ≡ arrived self }
    {
        if self.is_pending() {
            return self.put(Power::ON);
        }
        self
    }
}

// An arrival, in the caller's own record. It answers whether the core was pending.
pub fn arrive(p: &mut Power) -> bool
    ensures { (result ≡ is_pending p.old) × (p.new ≡ arrived p.old) }
{
    let was = *p;
    *p = Power::arrived(was);
    was.is_pending()
}

// What an arrival comes to: whether the core was pending, and its power now.
#[derive(Clone, Copy)]
pub struct Arriving {
    pub came: bool,
    pub power: Power,
}

// The arrival of a core by value. A table of numbers holds no record that could be lent, so it is lent from here.
pub fn arrival(p: Power) -> Arriving
    ensures { result ≡ arrival_of p }
{
    let mut lent = p;
    let came = arrive(&mut lent);
    Arriving { came, power: lent }
}

// Which world runs on a core.
#[derive(Clone, Copy)]
pub struct Turn {
    pub world: u64,
}

impl Turn {
    // A hand-over: the receiver runs, until the finish.
    pub fn handed(self, to: u64) -> Turn
        ensures { result ≡ handed self to }
    {
        Turn { world: to }
    }

    // A finish: Normal runs.
    pub fn finished(self) -> Turn
        ensures { result ≡ finished self }
    {
        Turn { world: NORMAL }
    }

    // An arrival: Normal runs, as after a finish.
    pub fn entered(self) -> Turn
        ensures { result ≡ entered self }
    {
        self.finished()
    }
}

// State, start address and context of each of the eight cores.
pub type Powers = [u64; 3 * MOST_CORES as usize];

// Running world of each of the eight cores.
pub type Turns = [u64; MOST_CORES as usize];

// At the start core 0 is ON and the others are OFF.
pub fn fresh_powers() -> Powers
    ensures { result ≡ first_powers }
{
    let mut t = [0; 3 * MOST_CORES as usize];
    t[0] = Power::ON;
    t
}

// At the start every core is set to run Normal.
#[tactic(auto, using(crate::specs::Cores::first_turns_are))]
pub fn fresh_turns() -> Turns
    ensures { result ≡ first_turns }
{
    [NORMAL; MOST_CORES as usize]
}

// The power of a core, OFF where there is no such core.
#[tactic(auto, using(crate::specs::Cores::slots))]
pub fn power_of(t: &Powers, core: u64) -> Power
    ensures { result ≡ power t.now core }
{
    if MOST_CORES <= core {
        return Power {
            state: Power::OFF,
            start: 0,
            context: 0,
        };
    }
    let at = 3 * core as usize;
    Power {
        state: t[at],
        start: t[at + 1],
        context: t[at + 2],
    }
}

// The power of a core is now this, if there is such a core.
#[tactic(auto, using(crate::specs::Cores::slots))]
pub fn set_power(t: &mut Powers, core: u64, p: Power)
    ensures { t.new ≡ with_power t.old core p }
{
    if MOST_CORES <= core {
        return;
    }
    let at = 3 * core as usize;
    t[at] = p.state;
    t[at + 1] = p.start;
    t[at + 2] = p.context;
}

// The turn of a core: no world that calls, where there is no such core.
#[tactic(auto, using(crate::specs::Cores::slots))]
pub fn turn_of(t: &Turns, core: u64) -> Turn
    ensures { result ≡ turn t.now core }
{
    if MOST_CORES <= core {
        return Turn { world: ROOT };
    }
    Turn {
        world: t[core as usize],
    }
}

// The turn of a core is now this, if there is such a core.
#[tactic(auto, using(crate::specs::Cores::slots))]
pub fn set_turn(t: &mut Turns, core: u64, r: Turn)
    ensures { t.new ≡ with_turn t.old core r }
{
    if MOST_CORES <= core {
        return;
    }
    t[core as usize] = r.world;
}

// The digit of a core in the mask of those that are ON.
#[tactic(auto, unfolding(crate::specs::Count::bit))]
fn on_digit(t: &Powers, core: u64) -> u32
    ensures { (result ≡ bit (is_on (power t.now core))) × (result ≤ 1) }
{
    u32::from(power_of(t, core).is_on())
}

// The mask of the cores that are ON, core 0 in its lowest bit.
#[tactic(auto, using(crate::specs::Cores::masked_none, crate::specs::Cores::masked_all))]
fn on_mask(t: &Powers) -> u32
    ensures { result ≡ on_mask t.now }
{
    let mut mask: u32 = 0;
    for core in (0..MOST_CORES).rev() {
        mask = on_digit(t, core) + 2 * mask;
    }
    mask
}

// How many cores are ON: the ones of the mask.
#[tactic(auto, using(crate::specs::Cores::mask_counts, crate::specs::Cores::mask_few))]
pub fn on_count(t: &Powers) -> u64
    ensures { result ≡ on_count t.now }
{
    u64::from(u32::count_ones(on_mask(t)))
}
