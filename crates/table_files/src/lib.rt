// Tables as a file has them: each number in eight bytes, the lowest byte first.
#![tactic(auto)]

ghost use Rattle.std.specs.Prelude.{◌≡◌};
ghost use Rattle.tools.specs.Laid.{laid};
ghost use Rattle.table_files.specs.Numbers.{numbers_of};

// So many numbers are read at most.
pub const MOST: usize = 32768;

pub type Numbers = [u64; MOST];

// Lays the numbers of the bytes over the others; past the end of the bytes they are 0.
pub fn load(numbers: &mut Numbers, bytes: &[u8])
    ensures { numbers.new ≡ laid numbers.old 0 (numbers_of bytes.now 32768) }
{
    for i in 0..MOST {
        numbers[i] = fip_entries::long_number(bytes, (8 * i) as u32);
    }
}
