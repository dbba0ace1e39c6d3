// The listing of a firmware package, a line for each image.
#![tactic(auto)]

mod names;
mod pieces;

ghost use Rattle.std.specs.Prelude.{◌≡◌, ◌+◌, ◌*◌, ◌≤◌, length};
ghost use Rattle.io.specs.Counts.{IsPrefixLen};
ghost use Rattle.writing.specs.Pieces.{Stands, written};
ghost use Rattle.fip_text.specs.Line.{number_text, numbers_text, line_text, lines_text, listed, list_text};

// The most bytes of a list: a line has at most 152, an identifier, three numbers, a name and a newline.
pub const LIST: usize = 9728;

// A space and the number.
fn put_number(out: &mut [u8], at: usize, x: u64) -> usize
    requires { at + 21 ≤ length out.old }
    ensures { Stands out.old at (number_text x) result out.new × (result ≤ at + 21) }
{
    let a = pieces::put_text(out, at, b" ");
    writing::put_decimal(out, a, x)
}

// Offset, size and flags of an image.
fn put_numbers(out: &mut [u8], at: usize, t: &[u8], k: u32) -> usize
    requires { at + 63 ≤ length out.old }
    ensures { Stands out.old at (numbers_text t.now k) result out.new × (result ≤ at + 63) }
{
    let a = put_number(out, at, fip_entries::offset_of(t, k));
    let b = put_number(out, a, fip_entries::size_of(t, k));
    put_number(out, b, fip_entries::flags_of(t, k))
}

// The line of entry k.
fn put_line(out: &mut [u8], at: usize, t: &[u8], k: u32) -> usize
    requires { at + 152 ≤ length out.old }
    ensures { Stands out.old at (line_text t.now k) result out.new × (result ≤ at + 152) }
{
    let id = fip_identifiers::text_of(t, k);
    let a = pieces::put_text(out, at, &id);
    let b = put_numbers(out, a, t, k);
    let c = names::put_name(out, b, &id);
    pieces::put_text(out, c, b"\n")
}

// The lines of n entries.
fn put_lines(out: &mut [u8], t: &[u8], n: u32) -> usize
    requires { (n * 152 ≤ length out.old) × (n ≤ 64) }
    ensures { Stands out.old 0 (lines_text t.now 0 n) result out.new × (result ≤ length out.new) }
{
    let mut at: usize = 0;
    for k in 0..n {
        at = put_line(out, at, t, k);
    }
    at
}

// How many entries are listed: all of a package's table, which has at most 64.
fn count_of(t: &[u8]) -> u32
    ensures { (result ≡ listed t.now) × (result ≤ 64) }
{
    (t.len() / fip_entries::ENTRY_SIZE).min(fip_entries::MOST_IMAGES) as u32
}

// The lines of a table's entries, in their order, from the start of the space on. It returns how many bytes they are.
pub fn put_list(out: &mut [u8; LIST], t: &[u8]) -> usize
    ensures out_after { (result, out.new) ≡ written out.old (list_text t.now) }
    ensures prefix_len { IsPrefixLen result out.new }
{
    put_lines(out, t, count_of(t))
}
