// The lines of an input: where each ends, the frame at a place, and the line that lacks its newline.
#![tactic(auto)]

ghost use Rattle.std.specs.Prelude.{◌≡◌, false, ◌<◌, min, length};
ghost use Rattle.lines.specs.Quick.{Looked};
ghost use Rattle.hex_digits.specs.Hex.{all_digits};
ghost use Rattle.lines.specs.Lines.{end_of, part, next_of};
ghost use Rattle.lines.specs.Front.{fronted};
ghost use Rattle.lines.specs.Close.{closing};

use parsing::{Frame, MOST, Status};

const NEWLINE: u8 = 10;

// The line at a place: its frame, and where the next line starts. There is none where its newline is not there yet.
#[derive(Clone, Copy)]
pub struct Next {
    pub frame: Frame,
    pub after: usize,
}

// What 132 signs are before a newline, with no search for an earlier one: a call on a core; signs that are not all digits; or
// anything else.
#[derive(Clone, Copy)]
enum Look {
    Call(u64),
    NoHex,
    Other,
}

// A call and its numbers; all else leaves the numbers.
fn quick(line: &[u8], xs: &mut [u64; 8]) -> Look
    requires { length line.now ≡ 132 }
    ensures { Looked line.now xs.old result xs.new }
{
    let Some(first) = hex_digits::byte_at(line, 0) else {
        return Look::Other;
    };
    if first != 0x20 {
        return Look::Other;
    }
    let Some(core) = hex_digits::byte_at(line, 1) else {
        return Look::Other;
    };
    if hex_read::numbers(line, 2, xs) {
        return Look::Call(core);
    }
    Look::NoHex
}

// Where the line at a place ends: at the first newline, or where the bytes end; a place past them is its own end.
pub fn line_end(s: &[u8], at: usize) -> usize
    ensures { result ≡ end_of s.now at }
{
    for i in at..s.len() {
        if s[i] == NEWLINE {
            return i;
        }
    }
    at.max(s.len())
}

// The line at a place, once it is known where it ends.
fn read_to(s: &[u8], at: usize, e: usize, xs: &mut [u64; 8]) -> Option<Next>
    requires { e ≡ end_of s.now at }
    ensures { (result, xs.new) ≡ next_of s.now at xs.old }
{
    if e < s.len() {
        let frame = parsing::parse(&s[at..e], xs);
        return Some(Next {
            frame,
            after: e + 1,
        });
    }
    None
}

// The line at a place, by way of its newline.
fn scan(s: &[u8], at: usize, xs: &mut [u64; 8]) -> Option<Next>
    ensures { (result, xs.new) ≡ next_of s.now at xs.old }
{
    let e = line_end(s, at);
    read_to(s, at, e, xs)
}

// The line at a place, where the signs up to a newline are not all digits: they are it, or they have another newline among them.
fn spoilt(s: &[u8], at: usize, e: usize, xs: &mut [u64; 8]) -> Option<Next>
    requires e_value { all_digits (part s.now at e) ≡ false }
    requires e_in_bounds { e < length s.now }
    ensures { (result, xs.new) ≡ next_of s.now at xs.old }
{
    let end = line_end(s, at);
    if end == e {
        return Some(Next {
            frame: Frame::Refused(Status::NoHex),
            after: e + 1,
        });
    }
    read_to(s, at, end, xs)
}

// The line at a place. A call is known without looking for its newline: there is none among 132 digits.
pub fn next_line(s: &[u8], at: usize, xs: &mut [u64; 8]) -> Option<Next>
    ensures { (result, xs.new) ≡ next_of s.now at xs.old }
{
    if s.len() < at {
        return None;
    }
    if s.len() - at <= MOST {
        return scan(s, at, xs);
    }
    let e = at + MOST;
    if s[e] == NEWLINE {
        match quick(&s[at..e], xs) {
            Look::Call(core) => {
                return Some(Next {
                    frame: Frame::Call { core },
                    after: e + 1,
                });
            }
            Look::NoHex => {
                return spoilt(s, at, e, xs);
            }
            Look::Other => {
                return scan(s, at, xs);
            }
        }
    }
    scan(s, at, xs)
}

// Moves a line that lacks its newline, the bytes from one place up to another, to the front, and says how many bytes of it
// are kept: as many as its frame can depend on, one sign more than a frame may have. Where these are no places of the bytes, nothing moves.
pub fn to_front(s: &mut [u8], from: usize, to: usize) -> usize
    ensures { (result, s.new) ≡ fronted s.old from to }
{
    if to < from || s.len() < to {
        return 0;
    }
    let n = (to - from).min(MOST + 1);
    for i in 0..n {
        s[i] = s[from + i];
    }
    n
}

// Where the bytes end that are taken, once there are n. Where nothing was read behind the `kept` that waited the input has
// ended, and a last line that lacks its newline gets one.
pub fn close(buf: &mut [u8], kept: usize, n: usize) -> usize
    ensures { (result, buf.new) ≡ closing buf.old kept n }
{
    if buf.len() <= n {
        return buf.len();
    }
    if n == kept {
        if n == 0 {
            return 0;
        }
        buf[n] = NEWLINE;
        return n + 1;
    }
    n
}
