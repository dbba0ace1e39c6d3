// The identifiers of the paper, each named once.

// The architecture.
pub const VERSION: u32 = 0x8000_0000;

pub const FEATURES: u32 = 0x8000_0001;

// Core power.
pub const POWER_VERSION: u32 = 0x8400_0000;

pub const CORE_OFF: u32 = 0x8400_0002;

pub const CORE_START: u32 = 0x8400_0003;

pub const CORE_START_WIDE: u32 = 0xC400_0003;

pub const CORE_STATE: u32 = 0x8400_0004;

pub const CORE_STATE_WIDE: u32 = 0xC400_0004;

pub const POWER_FEATURES: u32 = 0x8400_000A;

// Single pages, and Realm's hand-over.
pub const GRANULE_TO_REALM: u32 = 0xC400_01B0;

pub const GRANULE_TO_NORMAL: u32 = 0xC400_01B1;

pub const REALM_FIRST: u32 = 0xC400_0150;

pub const REALM_LAST: u32 = 0xC400_018E;

pub const REALM_FINISH: u32 = 0xC400_018F;

// The board.
pub const TAKE_PAGES: u32 = 0xC200_0010;

pub const GIVE_PAGES: u32 = 0xC200_0011;

pub const OWNS_PAGE: u32 = 0xC200_0012;

pub const MAP_PAGES: u32 = 0xC200_0020;

pub const UNMAP_PAGES: u32 = 0xC200_0021;

pub const WHERE_LEADS: u32 = 0xC200_0022;

pub const COUNT_ON: u32 = 0xC200_0030;

// The trusted system.
pub const SECURE_FINISH: u32 = 0xF200_0000;
