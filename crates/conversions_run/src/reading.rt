// What a line asks for, behind its name.
ghost use Rattle.std.specs.Prelude.{◌≤◌, length};

use crate::spaces::Space;
use signs::Signs;

// Bytes to numbers, or numbers to bytes.
#[derive(Clone, Copy)]
pub(crate) enum Way {
    Pack,
    Unpack,
}

// A conversion of so many pages; its two spaces are lent beside it.
#[derive(Clone, Copy)]
pub(crate) struct Conversion {
    pub(crate) way: Way,
    pub(crate) pages: u64,
}

// Puts the values up to a sign that is no comma into the space, each so many times as stands before its star. It answers whether there
// was room for them.
fn take_space(text: &mut Signs, space: &mut Space) -> bool
    ensures { length text.new.left.now ≤ length text.old.left.now }
{
    space.clear();
    let mut fits = true;
    let mut times = 1;
    while !text.left.is_empty() {
        let (value, end) = text.number();
        if end == Some(b'*') {
            times = value;
            continue;
        }
        fits = space.put(times, value) && fits;
        times = 1;
        if end != Some(b',') {
            break;
        }
    }
    fits
}

// The conversion; none, where the line is too short, of another kind, or has no room for a space.
pub(crate) fn take_conversion(
    text: &mut Signs,
    bytes: &mut Space,
    numbers: &mut Space,
) -> Option<Conversion>
    ensures { length text.new.left.now ≤ length text.old.left.now }
{
    let [_, kind, _, ..] = text.left else {
        text.left = &[];
        return None;
    };
    text.left = &text.left[2..];
    let (pages, _) = text.number();
    let bytes_fit = take_space(text, bytes);
    let numbers_fit = take_space(text, numbers);
    let way = match kind {
        b'p' => Way::Pack,
        b'u' => Way::Unpack,
        _ => return None,
    };
    if bytes_fit && numbers_fit {
        Some(Conversion { way, pages })
    } else {
        None
    }
}
