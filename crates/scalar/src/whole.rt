// Whole numbers, with and without a sign.
ghost use Rattle.std.specs.Prelude.{◌≡◌, ◌≤◌, drop, unsigned_abs};
ghost use Rattle.scalar.specs.Whole.{u64_read, u64_digits, i64_part, i64_digits, i64_number, i64_rest, i64_read, signed, most_i64};
ghost use Rattle.scalar.specs.Whole.{place_of_rest};

use crate::digits::{exceeds, gather};
use crate::errors::WholeError;

// The most that an i64 holds.
pub(crate) const MOST_I64: u64 = 0x7fff_ffff_ffff_ffff;

// Reads an optional `+` and digits.
#[tactic(auto, using(crate::proofs::Wholes::u64_nothing, crate::proofs::Wholes::u64_signed, crate::proofs::Wholes::u64_unsigned))]
pub fn to_u64(d: &[u8]) -> Result<u64, WholeError>
    ensures { result ≡ u64_read d.now }
{
    match d {
        [] => Err(WholeError::AllDigits),
        [b'+', ..] => u64_digits(d, 1),
        _ => u64_digits(d, 0),
    }
}

// Reads the digits after a sign of `sign` bytes. A byte that is no digit counts before the size.
fn u64_digits(d: &[u8], sign: usize) -> Result<u64, WholeError>
    ensures { result ≡ u64_digits (drop sign d.now) }
{
    let run = gather(d, sign, 0);
    if run.at < d.len() {
        return Err(WholeError::AllDigits);
    }
    if exceeds(d, sign) {
        return Err(WholeError::Overflow);
    }
    Ok(run.total)
}

// Reads an optional sign and digits, and nothing after them.
#[tactic(auto, using(crate::proofs::Wholes::read_tail, crate::proofs::Wholes::read_is, crate::proofs::Wholes::read_refused))]
pub fn to_i64(d: &[u8]) -> Result<i64, WholeError>
    ensures { result ≡ i64_read d.now }
{
    let (number, end) = i64_part(d)?;
    if end < d.len() {
        return Err(WholeError::AllDigits);
    }
    Ok(number)
}

// Reads an optional sign and digits, with whatever stands after them: the number that bytes begin with.
#[tactic(auto, using(crate::proofs::Wholes::number_told))]
pub fn to_i64_t(d: &[u8]) -> Result<i64, WholeError>
    ensures { result ≡ i64_number d.now }
{
    let (number, _) = i64_part(d)?;
    Ok(number)
}

// The part of the bytes after that number, none where it is refused: its bytes, and where it lies, which is at their end.
pub fn to_i64_rest(d: &[u8]) -> &[u8]
    ensures bytes { result.now ≡ i64_rest d.now }
    ensures place { result.ref_ptr ≡ place_of_rest d.entry.ref_ptr d.now (i64_rest d.now) }
{
    match i64_part(d) {
        Ok((_, end)) => &d[end..],
        Err(_) => &d[d.len()..],
    }
}

// Reads an optional sign and digits: the number, and the place after its digits. The digits are read in one place, with or
// without a sign, so that it stays short enough to be compiled into each of its callers. Who asks from outside gets the part
// that begins at that place, and no place.
#[tactic(auto, using(crate::proofs::Wholes::part_minus, crate::proofs::Wholes::part_plus, crate::proofs::Wholes::part_digit, crate::proofs::Wholes::part_other))]
fn i64_part(d: &[u8]) -> Result<(i64, usize), WholeError>
    ensures { result ≡ i64_part d.now }
{
    let (sign, negative) = match d {
        [b'-', ..] => (1, true),
        [b'+', ..] => (1, false),
        [b'0'..=b'9', ..] => (0, false),
        _ => return Err(WholeError::AllDigits),
    };
    i64_digits(d, sign, negative)
}

// Reads the digits after a sign of `sign` bytes. The size counts before what stands after them.
fn i64_digits(d: &[u8], sign: usize, negative: bool) -> Result<(i64, usize), WholeError>
    ensures { result ≡ i64_digits negative sign (drop sign d.now) }
{
    let run = gather(d, sign, 0);
    if exceeds(d, sign) {
        return Err(WholeError::Overflow);
    }
    let total = run.total;
    if total > MOST_I64 {
        return Err(WholeError::Overflow);
    }
    Ok((under_sign(negative, total), run.at))
}

// A number under its sign.
pub(crate) fn under_sign(negative: bool, n: u64) -> i64
    requires { n ≤ most_i64 }
    ensures { result ≡ signed negative n }
{
    if negative { 0 - (n as i64) } else { n as i64 }
}

// A number without its sign.
pub fn magnitude(n: i64) -> u64
    ensures { result ≡ unsigned_abs n }
{
    n.unsigned_abs()
}
