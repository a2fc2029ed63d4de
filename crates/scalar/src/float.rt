// Decimals, read to the bit: a total rounded once, then one division by an exact power of ten.
ghost use Rattle.std.specs.Prelude.{◌≡◌, ◌+◌, ◌^◌, ◌<◌, ◌≤◌, length, drop, pos, nat_lt};
ghost use Rattle.std.specs.Float.{binary64};
ghost use Rattle.std.specs.Float.Ieee.{of_int};
ghost use Rattle.scalar.specs.Digits.{digit_run, value, gathered, most_u64};
ghost use Rattle.scalar.specs.Float.{most_places, tail_of, lossy as lossy-of, unpointed as unpointed-of, factor as factor-of, divided as divided-of};
ghost use Rattle.scalar.specs.Float.{quotient as quotient-of, after_point, f64_digits, f64_read, pattern_of};

use crate::digits::{Gathered, OVERFLOW_CUTOFF, exceeds, gather, overflows};
use crate::errors::DecimalError;
use crate::whole::{MOST_I64, under_sign};

// Up to this one a power of ten is an f64 of its own.
pub(crate) const MOST_PLACES: usize = 22;

// The powers of ten that an f64 holds exactly.
const POWER_OF_TEN: [f64; MOST_PLACES + 1] = [
    1e0, 1e1, 1e2, 1e3, 1e4, 1e5, 1e6, 1e7, 1e8, 1e9, 1e10, 1e11, 1e12, 1e13, 1e14, 1e15, 1e16,
    1e17, 1e18, 1e19, 1e20, 1e21, 1e22,
];

// 2^53 - 1: up to here every whole number is an f64 of its own.
const SAFE_INTEGER: u64 = 0x1f_ffff_ffff_ffff;

// The pattern that stands for every NaN: a quiet one.
const NAN_PATTERN: u64 = 0x7ff8_0000_0000_0000;

// What stands after a run of digits: the end or a closing `f`, a point, or anything else.
#[derive(Clone, Copy)]
pub enum Tail {
    End,
    Point,
    Other,
}

// Reads a sign, digits, a point and a closing `f`.
#[tactic(auto, using(crate::proofs::Floats::read_minus, crate::proofs::Floats::read_plus, crate::proofs::Floats::read_digit, crate::proofs::Floats::read_point, crate::proofs::Floats::read_other))]
pub fn to_f64(d: &[u8]) -> Result<f64, DecimalError>
    ensures { result ≡ f64_read d.now }
{
    match d {
        [b'-', ..] => f64_digits(d, 1, true),
        [b'+', ..] => f64_digits(d, 1, false),
        [b'0'..=b'9' | b'.', ..] => f64_digits(d, 0, false),
        _ => Err(DecimalError::AllDigits),
    }
}

// Reads what stands after a sign of `sign` bytes.
fn f64_digits(d: &[u8], sign: usize, negative: bool) -> Result<f64, DecimalError>
    ensures { result ≡ f64_digits negative (drop sign d.now) }
{
    let whole = gather(d, sign, 0);
    let at = whole.at;
    match tail_at(d, at) {
        Tail::End => unpointed(d, sign, negative, whole),
        Tail::Point => pointed(d, sign, negative, whole),
        Tail::Other => Err(DecimalError::AllDigits),
    }
}

// What stands at a place where a run of digits ended.
#[tactic(auto, using(crate::proofs::Floats::tail_end, crate::proofs::Floats::tail_point, crate::proofs::Floats::tail_other, crate::proofs::Floats::tail_closed, crate::proofs::Floats::tail_after_f))]
pub(crate) fn tail_at(d: &[u8], at: usize) -> Tail
    ensures { result ≡ tail_of (drop at d.now) }
{
    if d.len() <= at {
        return Tail::End;
    }
    let b = d[at];
    if b == b'.' {
        return Tail::Point;
    }
    if b != b'f' {
        return Tail::Other;
    }
    if d.len() - at == 1 {
        Tail::End
    } else {
        Tail::Other
    }
}

// A number without a point, from its gathered digits.
fn unpointed(d: &[u8], sign: usize, negative: bool, whole: Gathered) -> Result<f64, DecimalError>
    requires { whole ≡ gathered d.now sign 0 }
    ensures { result ≡ unpointed-of negative (value 0 (digit_run (drop sign d.now))) }
{
    if exceeds(d, sign) {
        return Err(DecimalError::Overflow);
    }
    let total = whole.total;
    if total > SAFE_INTEGER {
        return lossy(negative, total);
    }
    Ok(std::num::nearest_i64_to_f64(under_sign(negative, total)))
}

// A number above SAFE_INTEGER. A negative one goes by way of an i64, which may not hold it.
fn lossy(negative: bool, total: u64) -> Result<f64, DecimalError>
    ensures { result ≡ lossy-of negative total }
{
    if !negative {
        return Err(DecimalError::PrecisionLoss(std::num::nearest_u64_to_f64(total)));
    }
    if total > MOST_I64 {
        return Err(DecimalError::Overflow);
    }
    Err(DecimalError::PrecisionLoss(std::num::nearest_i64_to_f64(under_sign(true, total))))
}

// A number with a point, from its gathered whole part on.
fn pointed(d: &[u8], sign: usize, negative: bool, whole: Gathered) -> Result<f64, DecimalError>
    requires { (whole ≡ gathered d.now sign 0) × (whole.at < length d.now) }
    ensures { result ≡ after_point negative whole.total (drop (whole.at + 1) d.now) }
{
    let at = whole.at + 1;
    let all = gather(d, at, whole.total);
    let end = all.at;
    match tail_at(d, end) {
        Tail::End => {
            if carries_past(d, sign, whole) {
                Err(DecimalError::Overflow)
            } else {
                quotient(negative, all.total, end - at)
            }
        }
        Tail::Point | Tail::Other => Err(DecimalError::AllDigits),
    }
}

// Whether the fraction carries the gathered whole part past what 64 bits hold.
#[tactic(auto, using(crate::proofs::Floats::short_carried))]
pub(crate) fn carries_past(d: &[u8], sign: usize, whole: Gathered) -> bool
    requires { (whole ≡ gathered d.now sign 0) × (whole.at < length d.now) }
    ensures { result ≡ nat_lt most_u64 (value whole.total (digit_run (drop (whole.at + 1) d.now))) }
{
    d.len() >= OVERFLOW_CUTOFF && overflows(d, whole.at + 1, whole.total)
}

// A total with `places` fraction digits.
fn quotient(negative: bool, total: u64, places: usize) -> Result<f64, DecimalError>
    ensures { result ≡ quotient-of negative total places }
{
    if places > MOST_PLACES {
        return Err(DecimalError::Overflow);
    }
    Ok(divided(negative, total, places))
}

// A total over the power of ten of its places, under its sign. The total is rounded once, the power
// is exact, and the quotient is rounded once.
fn divided(negative: bool, total: u64, places: usize) -> f64
    requires { places ≤ most_places }
    ensures { result ≡ divided-of negative total places }
{
    let quotient = std::num::nearest_u64_to_f64(total) / power_of_ten(places);
    factor(negative) * quotient
}

// The sign as a factor, so that a negative zero stays negative.
fn factor(negative: bool) -> f64
    ensures { result ≡ factor-of negative }
{
    if negative { -1.0 } else { 1.0 }
}

// Ten to the `k`.
fn power_of_ten(k: usize) -> f64
    requires { k ≤ most_places }
    ensures { result ≡ of_int binary64 (pos (10 ^ k)) }
{
    POWER_OF_TEN[k]
}

// The bits of an f64, and one fixed pattern for every NaN.
pub fn pattern(x: f64) -> u64
    ensures { result ≡ pattern_of x }
{
    if x != x { NAN_PATTERN } else { f64::to_bits(x) }
}
