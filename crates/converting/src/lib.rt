// Converts the owners of pages from the old table, a byte each, to marks, sixteen in a number, and back: all of them or none.
#![tactic(auto)]

ghost use Rattle.std.specs.Prelude.{◌≡◌, true, false, MatchResult};
ghost use Rattle.conversions.specs.Conversions.{cramped, packed, unpacked};
ghost use Rattle.converting.specs.Statuses.{number_of, status};
ghost use Rattle.converting.specs.declared.Fault.TheVariants.{Cramped};

use rules::MOST_PAGES;

// The first rule that a conversion breaks.
#[derive(Clone, Copy, PartialEq, Eq)]
pub enum Fault {
    // the page count is not 1 to 4096, or one of the spaces is too small
    Cramped,
    // a byte or mark that is no owner, or padding that is not 0
    Stray,
}

impl From<Fault> for u64 {
    ghost from_gives = { λ fault number. number ≡ number_of fault };

    // The rule's number.
    fn from(fault: Fault) -> u64 {
        match fault {
            Fault::Cramped => 0x88,
            Fault::Stray => 0x89,
        }
    }
}

// The page count, where there may be so many, and a space of so many bytes and one of so many numbers have room for them.
fn judge_room(n: u64, bytes: usize, numbers: usize) -> Result<u32, Fault>
    ensures { MatchResult result (λ pages. (pages ≡ n) × (cramped n bytes numbers ≡ false)) (λ fault. (fault ≡ Cramped) × (cramped n bytes numbers ≡ true)) }
{
    if n == 0 || MOST_PAGES < n {
        return Err(Fault::Cramped);
    }
    if bytes < n as usize || numbers < ((n + 15) / 16) as usize {
        return Err(Fault::Cramped);
    }
    Ok(n as u32)
}

// Packs the owners of n pages: bytes to numbers. Where it is refused nothing is written, and numbers past those needed stay.
pub fn pack(n: u64, bytes: &[u8], numbers: &mut [u64]) -> Result<(), Fault>
    ensures { (status result, numbers.new) ≡ packed n bytes.now numbers.old }
{
    let pages = judge_room(n, bytes.len(), numbers.len())?;
    if conversions::has_stray_byte(pages, bytes) {
        return Err(Fault::Stray);
    }
    conversions::lay_numbers(pages, bytes, numbers);
    Ok(())
}

// Unpacks the owners of n pages: numbers to bytes. Where it is refused nothing is written, and bytes past those needed stay. What it
// shares with `pack` is `judge_room`; one function for both ways would be no plainer, since each calls two others on other spaces.
pub fn unpack(n: u64, numbers: &[u64], bytes: &mut [u8]) -> Result<(), Fault>
    ensures { (status result, bytes.new) ≡ unpacked n numbers.now bytes.old }
{
    let count = judge_room(n, bytes.len(), numbers.len())?;
    if conversions::has_stray_mark(count, numbers) {
        return Err(Fault::Stray);
    }
    conversions::lay_bytes(count, numbers, bytes);
    Ok(())
}
