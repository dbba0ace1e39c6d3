// Pieces of text, put one behind the other where there is room for all of them.
ghost use Rattle.std.specs.Prelude.{◌+◌, ◌≤◌, length};
ghost use Rattle.writing.specs.Pieces.{Stands};

// It returns the place behind the text.
pub(crate) fn put_text(out: &mut [u8], at: usize, text: &[u8]) -> usize
    requires { at + length text.now ≤ length out.old }
    ensures { Stands out.old at text.now result out.new }
{
    writing::put_text(out, at, text)
}
