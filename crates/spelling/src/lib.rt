// The numbers of tables as bytes: eight for each, the lowest first.
#![tactic(auto)]

ghost use Rattle.std.specs.Prelude.{◌≡◌};
ghost use Rattle.tools.specs.Laid.{laid};
ghost use Rattle.spelling.specs.Spelled.{spelled};

// As many numbers as the tables of any run take, and their bytes.
pub const MOST_NUMBERS: usize = 22528;

pub type Numbers = [u64; MOST_NUMBERS];

pub type Bytes = [u8; 180224];

// Lays the numbers over the bytes.
pub fn spell(numbers: &Numbers, bytes: &mut Bytes)
    ensures { bytes.new ≡ laid bytes.old 0 (spelled numbers.now 22528) }
{
    for i in 0..MOST_NUMBERS {
        fip_lay::put_number(bytes, 8 * i, numbers[i], 8);
    }
}
