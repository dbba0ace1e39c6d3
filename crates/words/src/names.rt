// The words by name. Numbers and no enum: `word_text` takes them, and the theorems on lines speak of a word that is worked out, as
// a mapping's attributes from READ_ONLY on.

// Worlds, which are owners too, from Root on.
pub const ROOT: u64 = 0;

pub const SECURE: u64 = 1;

pub const NORMAL: u64 = 2;

pub const REALM: u64 = 3;

// Handlers, from architecture on.
pub const ARCHITECTURE: u64 = 4;

pub const BOARD: u64 = 5;

pub const STANDARD: u64 = 6;

pub const TRUSTED: u64 = 7;

// Attributes of a mapping.
pub const READ_ONLY: u64 = 8;

pub const WRITABLE: u64 = 9;

pub const EXECUTABLE: u64 = 10;

// Types of calls.
pub const YIELDING: u64 = 11;

pub const FAST: u64 = 12;

// What comes of a frame.
pub const ACCEPTED: u64 = 13;

pub const ARRIVED: u64 = 14;

pub const NO_PAIRS: u64 = 15;

pub const NO_KIND: u64 = 16;

pub const REFUSED71: u64 = 17;

pub const REFUSED72: u64 = 18;

pub const WRONG_TIME: u64 = 19;

pub const OUT_OF_RANGE: u64 = 20;

pub const NO_CORE: u64 = 21;

pub const GIVEN_BEFORE: u64 = 22;

pub const NAMED_BEFORE: u64 = 23;

pub const NOT_ON: u64 = 24;

pub const NOT_PENDING: u64 = 25;

// Why a call is refused, in the order of the reasons.
pub const UNSERVED: u64 = 26;

pub const INVALID: u64 = 27;

pub const WRONG_OWNER: u64 = 28;

pub const ALREADY_ON: u64 = 29;

pub const ALREADY_PENDING: u64 = 30;

pub const NO_PAGES: u64 = 31;

pub const MAPPED: u64 = 32;

pub const BAD_ADDRESS: u64 = 33;

pub const FULL: u64 = 34;

pub const OVERLAP: u64 = 35;

pub const NOT_OWNED: u64 = 36;

pub const NOWHERE: u64 = 37;

pub const MALFORMED: u64 = 38;

pub const NO_MAPPING: u64 = 39;

pub const BEYOND: u64 = 40;

// What comes of a call.
pub const MINUS: u64 = 41;

pub const GRANTED: u64 = 42;

pub const KNOWN: u64 = 43;

pub const ANSWERED: u64 = 44;

pub const VERSION: u64 = 45;

pub const POWER_VERSION: u64 = 46;

pub const IS_ON: u64 = 47;

pub const IS_OFF: u64 = 48;

pub const IS_PENDING: u64 = 49;

pub const OWNED: u64 = 50;

pub const UNOWNED: u64 = 51;

pub const LEADS: u64 = 52;

pub const RUNS: u64 = 53;

pub const OFF: u64 = 54;

// What a call asks.
pub const ASK_CALLS: u64 = 55;

pub const ASK_KNOWN: u64 = 56;

pub const ASK_POWER: u64 = 57;

pub const TURN_OFF: u64 = 58;

pub const START: u64 = 59;

pub const ASK_STATE: u64 = 60;

pub const ASK_POWERS: u64 = 61;

pub const TAKE_PAGE: u64 = 62;

pub const GIVE_PAGE: u64 = 63;

pub const TAKE: u64 = 64;

pub const GIVE: u64 = 65;

pub const ASK_OWNER: u64 = 66;

pub const MAP: u64 = 67;

pub const UNMAP: u64 = 68;

pub const ASK_WHERE: u64 = 69;

pub const COUNT: u64 = 70;

pub const FINISH: u64 = 71;

pub const OTHER: u64 = 72;

// Between its arguments.
pub const FROM: u64 = 73;

pub const AT: u64 = 74;

pub const CONTEXT: u64 = 75;

pub const LEVEL: u64 = 76;

pub const COMMA: u64 = 77;

pub const BLANK: u64 = 78;

pub const PAGE: u64 = 79;

pub const PAGES: u64 = 80;

pub const BYTE: u64 = 81;

pub const BYTES: u64 = 82;

pub const ATTRIBUTES: u64 = 83;

// A frame of set-up, an arrival, and no frame.
pub const SETUP: u64 = 84;

pub const NO_FRAME: u64 = 85;

pub const CORE: u64 = 86;

pub const COLON: u64 = 87;

pub const WINDOW: u64 = 88;

pub const ONE_CORE: u64 = 89;

pub const CORES: u64 = 90;

pub const CALLS: u64 = 91;

pub const UP_TO: u64 = 92;

pub const GO_TO: u64 = 93;

pub const HANDLER: u64 = 94;

pub const KIND: u64 = 95;

pub const FROM_PAGE: u64 = 96;

pub const OWNER: u64 = 97;

pub const NUMBER: u64 = 98;

pub const ARRIVES: u64 = 99;

// How things stand in the end.
pub const STANDS: u64 = 100;

pub const ON_AND: u64 = 101;

pub const PENDING: u64 = 102;

pub const OFF_STILL: u64 = 103;

pub const LINE: u64 = 104;

pub const UNNAMED: u64 = 105;

pub const MAPS: u64 = 106;

pub const NO_MAPPINGS: u64 = 107;

pub const NO_WINDOW: u64 = 108;

pub const OUTSIDE: u64 = 109;

// Under the picture.
pub const LEGEND: u64 = 110;

pub const CAPITALS: u64 = 111;
