// A line of bytes read as a frame, or refused: the part of the frame program that needs no state.
#![tactic(auto)]

ghost use Rattle.std.specs.Prelude.{◌≡◌};
ghost use Rattle.parsing.specs.Frame.{status_byte, site_in, entry_in, name_in, call_in, arrival_in, sized, known, frame_of, is_call, parsed};

// The most digits of a line: a call's.
pub const MOST: usize = 132;

// How a frame is answered. The paper's byte of each stands in one definition.
#[derive(Clone, Copy)]
pub enum Status {
    Accepted,
    // the line cannot be read as bytes
    NoHex,
    // the bytes are no frame's
    Unknown,
    // a frame at a time when it may not come
    Misplaced,
    // a value outside its range
    OutOfRange,
    // a pair or page already given, or a core in the wrong state
    Clash,
}

// A line by itself. The eight numbers of a call stand beside it.
#[derive(Clone, Copy)]
pub enum Frame {
    // 11: the window and the number of cores
    Site {
        base: u64,
        pages: u64,
        cores: u64,
    },
    // 10: a ledger entry
    Entry {
        first: u64,
        last: u64,
        kind: u64,
        handler: u64,
    },
    // 12: pages and their owner
    Name {
        first: u64,
        count: u64,
        owner: u64,
    },
    // 20: a call
    Call {
        core: u64,
    },
    // 21: a pending core arrives
    Arrival {
        core: u64,
    },
    // no error beside it, since `frame_of` and the theorems on a line take a refusal as one of its frames
    Refused(Status),
}

impl From<Status> for u64 {
    // The paper's byte of a status.
    fn from(status: Status) -> u64
        ensures { result ≡ status_byte status }
    {
        match status {
            Status::Accepted => 0x00,
            Status::NoHex => 0x71,
            Status::Unknown => 0x72,
            Status::Misplaced => 0x73,
            Status::OutOfRange => 0x74,
            Status::Clash => 0x75,
        }
    }
}

// The same, by name.
pub fn byte_of(s: Status) -> u64
    ensures { result ≡ status_byte s }
{
    u64::from(s)
}

// 11: the window and the cores, eight bytes, two and one.
fn site(line: &[u8]) -> Frame
    ensures { result ≡ site_in line.now }
{
    let base = hex_digits::number(line, 1, 8);
    let pages = hex_digits::number(line, 9, 2);
    let cores = hex_digits::number(line, 11, 1);
    Frame::Site { base, pages, cores }
}

// 10: four bytes.
fn entry(line: &[u8]) -> Frame
    ensures { result ≡ entry_in line.now }
{
    let first = hex_digits::number(line, 1, 1);
    let last = hex_digits::number(line, 2, 1);
    let kind = hex_digits::number(line, 3, 1);
    let handler = hex_digits::number(line, 4, 1);
    Frame::Entry {
        first,
        last,
        kind,
        handler,
    }
}

// 12: the first page and the count, two bytes each, and the owner.
fn name(line: &[u8]) -> Frame
    ensures { result ≡ name_in line.now }
{
    let first = hex_digits::number(line, 1, 2);
    let count = hex_digits::number(line, 3, 2);
    let owner = hex_digits::number(line, 5, 1);
    Frame::Name {
        first,
        count,
        owner,
    }
}

// 20: the core. Its numbers stand beside the frame.
fn call(line: &[u8]) -> Frame
    ensures { result ≡ call_in line.now }
{
    let core = hex_digits::number(line, 1, 1);
    Frame::Call { core }
}

// 21: the core.
fn arrival(line: &[u8]) -> Frame
    ensures { result ≡ arrival_in line.now }
{
    let core = hex_digits::number(line, 1, 1);
    Frame::Arrival { core }
}

// A frame that takes so many bytes, if the line has them.
fn sized(line: &[u8], bytes: u8, frame: Frame) -> Frame
    ensures { result ≡ sized line.now bytes frame }
{
    if line.len() == usize::from(bytes) * 2 {
        return frame;
    }
    Frame::Refused(Status::Unknown)
}

// A line of digits, by its first byte and the length that goes with it.
fn known_frame(line: &[u8]) -> Frame
    ensures { result ≡ known line.now }
{
    let first = hex_digits::number(line, 0, 1);
    match first {
        0x11 => sized(line, 12, site(line)),
        0x10 => sized(line, 5, entry(line)),
        0x12 => sized(line, 6, name(line)),
        0x20 => sized(line, 66, call(line)),
        0x21 => sized(line, 2, arrival(line)),
        _ => Frame::Refused(Status::Unknown),
    }
}

// The frame of a line, without a call's numbers.
fn frame_of(line: &[u8]) -> Frame
    ensures { result ≡ frame_of line.now }
{
    let n = line.len();
    if n == 0 || n % 2 == 1 || MOST < n || !hex_digits::all_digits(line) {
        return Frame::Refused(Status::NoHex);
    }
    known_frame(line)
}

// Whether the numbers of a line are to be read too.
fn is_call(frame: Frame) -> bool
    ensures { result ≡ is_call frame }
{
    matches!(frame, Frame::Call { .. })
}

// The frame of a line, its bytes without the newline. A call's numbers are written to `xs`.
pub fn parse(line: &[u8], xs: &mut [u64; 8]) -> Frame
    ensures { (result, xs.new) ≡ parsed line.now xs.old }
{
    let frame = frame_of(line);
    if is_call(frame) {
        hex_read::numbers(line, 2, xs);
        return frame;
    }
    frame
}
