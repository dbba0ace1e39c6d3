// What is left of a text, from whose front names and hexadecimal numbers are taken.
#![tactic(auto)]

ghost use Rattle.std.specs.Prelude.{◌≡◌, ◌+◌, ◌<◌, ◌≤◌, ◌==◌, length, take, drop, slice_get};
ghost use Rattle.std.specs.List.{before_first, after_first, position_or_len};
ghost use Rattle.signs.specs.Numbers.{is_no_digit, value};

// The signs that are left.
#[derive(Clone, Copy)]
pub struct Signs<'a> {
    pub left: &'a [u8],
}

impl<'a> Signs<'a> {
    // Takes the signs before a place, and the one there.
    fn through_place(&mut self, at: usize) -> (&'a [u8], Option<u8>)
        ensures taken { result.0.now ≡ take at self.old.left.now }
        ensures end { result.1 ≡ slice_get self.old.left.now at }
        ensures left { self.new.left.now ≡ drop (at + 1) self.old.left.now }
    {
        let (taken, left) = self.left.split_at(at.min(self.left.len()));
        match left {
            [end, left @ ..] => {
                self.left = left;
                (taken, Some(*end))
            }
            [] => {
                self.left = left;
                (taken, None)
            }
        }
    }

    // Takes the signs up to one that ends them, and that one; all, where it does not come.
    pub fn through(&mut self, end: u8) -> &'a [u8]
        ensures taken { result.now ≡ before_first (λ sign. sign == end) self.old.left.now }
        ensures left { self.new.left.now ≡ after_first (λ sign. sign == end) self.old.left.now }
    {
        let left = self.left;
        let at = left
            .iter()
            .position(|sign| *sign == end)
            .unwrap_or(left.len());
        self.through_place(at).0
    }

    // Takes the digits of a number, and the sign behind them: the number, of which the last sixteen digits count, and that sign.
    pub fn number(&mut self) -> (u64, Option<u8>)
        ensures value { result.0 ≡ value (before_first is_no_digit self.old.left.now) }
        ensures end { result.1 ≡ slice_get self.old.left.now (position_or_len is_no_digit self.old.left.now) }
        ensures left { self.new.left.now ≡ after_first is_no_digit self.old.left.now }
    {
        let left = self.left;
        let at = left
            .iter()
            .position(|sign| 15 < hex_digits::digit(*sign))
            .unwrap_or(left.len());
        let (digits, end) = self.through_place(at);
        let number = digits.iter().fold(0u64, |number, sign| {
            number
                .wrapping_mul(16)
                .wrapping_add(u64::from(hex_digits::digit(*sign)))
        });
        (number, end)
    }
}
