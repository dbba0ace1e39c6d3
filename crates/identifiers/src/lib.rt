// The identifier of a call: its parts, and the identifier that parts make.
#![tactic(auto)]

ghost use Rattle.std.specs.Prelude.{◌≡◌, ◌-◌, ◌^◌};
ghost use Rattle.identifiers.specs.Identifier.{identifier_of, parts, fitting, InRange, whole_of, joined, key_of, admitted, argument, answer_bits, answer_bits_of};

// One past the largest number of 32 bits.
const LIMIT: u64 = 1 << 32;

// The 32 bits by which a call is named.
#[derive(Clone, Copy)]
pub struct Identifier(pub u32);

// What the fields of an identifier hold. One-bit fields are numbers too, as the laws `negative_short` and `negative_long` say them.
#[derive(Clone, Copy)]
pub struct Parts {
    // 1 for a fast call, 0 for a yielding one
    pub fast: u32,
    // 1 for a 64-bit call, 0 for a 32-bit one
    pub wide: u32,
    pub owner: u32,
    pub function: u32,
    // 1 where a fast call hints that SVE's registers hold nothing
    pub hint: u32,
    // bits 23 to 17, zero in a fast call
    pub reserved: u32,
}

impl Identifier {
    // The lowest bit of each field.
    const FAST_AT: u32 = 31;

    const WIDE_AT: u32 = 30;

    const OWNER_AT: u32 = 24;

    const FUNCTION_AT: u32 = 0;

    const HINT_AT: u32 = 16;

    const RESERVED_AT: u32 = 17;

    // How many numbers each field has room for.
    const FAST_ROOM: u32 = 1 << 1;

    const WIDE_ROOM: u32 = 1 << 1;

    const OWNER_ROOM: u32 = 1 << 6;

    const FUNCTION_ROOM: u32 = 1 << 16;

    const HINT_ROOM: u32 = 1 << 1;

    const RESERVED_ROOM: u32 = 1 << 7;

    // The identifier that a caller's x0 holds.
    #[tactic(auto, unfolding(crate::specs::Identifier::identifier_of))]
    pub fn of(x0: u64) -> Identifier
        ensures { result ≡ identifier_of x0 }
    {
        Identifier((x0 % LIMIT) as u32)
    }

    // What stands in each field. Its bit 30 says how many bits a negative answer takes.
    #[tactic(auto, unfolding(crate::specs::Identifier::parts, crate::specs::Identifier::answer_bits, crate::specs::Identifier::answer_bits_of))]
    pub fn split(self) -> Parts
        ensures { (result ≡ parts self) × (answer_bits result ≡ answer_bits_of self) }
    {
        let n = self.0;
        Parts {
            fast: (n >> Identifier::FAST_AT) % Identifier::FAST_ROOM,
            wide: (n >> Identifier::WIDE_AT) % Identifier::WIDE_ROOM,
            owner: (n >> Identifier::OWNER_AT) % Identifier::OWNER_ROOM,
            function: (n >> Identifier::FUNCTION_AT) % Identifier::FUNCTION_ROOM,
            hint: (n >> Identifier::HINT_AT) % Identifier::HINT_ROOM,
            reserved: (n >> Identifier::RESERVED_AT) % Identifier::RESERVED_ROOM,
        }
    }

    // The identifier with these parts, refused where one is too large for its field.
    #[tactic(auto, using(crate::specs::Identifier::joinings))]
    pub fn join(p: Parts) -> Option<Identifier>
        ensures { result ≡ joined p }
    {
        if p.fit() {
            return Some(p.whole());
        }
        None
    }

    // The one key by which identifiers are compared: that of a fast call has its hint cleared.
    pub fn key(self) -> u32
        ensures { result ≡ key_of self }
    {
        let n = self.0;
        if (n >> Identifier::FAST_AT) % Identifier::FAST_ROOM == 1 {
            let hint = (n >> Identifier::HINT_AT) % Identifier::HINT_ROOM;
            return n - (hint << Identifier::HINT_AT);
        }
        n
    }
}

impl Parts {
    // Whether each part fits its field.
    #[tactic(auto, using(rules::specs::Tests::choices), unfolding(crate::specs::Identifier::fitting))]
    fn fit(self) -> bool
        ensures { result ≡ fitting self }
    {
        self.fast < Identifier::FAST_ROOM
            && self.wide < Identifier::WIDE_ROOM
            && self.owner < Identifier::OWNER_ROOM
            && self.function < Identifier::FUNCTION_ROOM
            && self.hint < Identifier::HINT_ROOM
            && self.reserved < Identifier::RESERVED_ROOM
    }

    // Whether the call passes the test on bits 23 to 17.
    #[tactic(auto, using(rules::specs::Tests::choices), unfolding(crate::specs::Identifier::admitted))]
    pub fn admitted(self) -> bool
        ensures { result ≡ admitted self }
    {
        self.fast != 1 || self.reserved == 0
    }

    // The identifier whose fields hold these parts.
    fn whole(self) -> Identifier
        requires { InRange self }
        ensures { result ≡ whole_of self }
    {
        let high = (self.fast << Identifier::FAST_AT) + (self.wide << Identifier::WIDE_AT);
        let middle = (self.owner << Identifier::OWNER_AT)
            + (self.reserved << Identifier::RESERVED_AT);
        let low = (self.hint << Identifier::HINT_AT) + (self.function << Identifier::FUNCTION_AT);
        Identifier(high + middle + low)
    }

    // The highest number in as many bits as a negative answer takes.
    #[tactic(auto, using(crate::specs::Identifier::highest_short, crate::specs::Identifier::highest_long))]
    pub fn highest(self) -> u64
        ensures { result ≡ 2 ^ answer_bits self - 1 }
    {
        if 0 < self.wide {
            return 0xFFFF_FFFF_FFFF_FFFF;
        }
        0xFFFF_FFFF
    }

    // What the call reads of an argument.
    #[tactic(auto, using(rules::specs::Tests::choices), unfolding(crate::specs::Identifier::argument))]
    pub fn argument(self, x: u64) -> u64
        ensures { result ≡ argument self x }
    {
        if self.wide == 0 {
            return x % LIMIT;
        }
        x
    }
}
