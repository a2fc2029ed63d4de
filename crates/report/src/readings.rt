// The readings of a scalar as a line, which is what a record of kind `S` is answered with, and the number that it begins
// with, for kind `N`.
ghost use Rattle.std.specs.Prelude.{◌≡◌, [], ◌∷◌, ◌++◌};
ghost use Rattle.data.specs.Bytes.{equals};
ghost use Rattle.put.specs.Append.{wrote, append};
ghost use Rattle.report.specs.Digits.{decimal};
ghost use Rattle.report.specs.Readings.{bool_text, u64_text, i64_text, carried_text, f64_text, exact_of, readings_of, left_text, leading_of};

use crate::numbers::{put_decimal, put_hex, put_integer};
use put::put_byte;
use scalar::{BoolError, DecimalError, Numbered, WholeError};

// Puts an `=` and a number.
pub(crate) fn put_value(out: &mut [u8], at: usize, n: u64) -> usize
    ensures { wrote result out.new ≡ append out.old at (equals ∷ [] ++ decimal n) }
{
    let next = put_byte(out, at, b'=');
    put_decimal(out, next, n)
}

// Puts what bytes say as yes or no.
pub fn put_bool(out: &mut [u8], at: usize, r: Result<bool, BoolError>) -> usize
    ensures { wrote result out.new ≡ append out.old at (bool_text r) }
{
    match r {
        Ok(b) => put_value(out, at, u64::from(b)),
        Err(e) => put_decimal(out, at, e.number() as u64),
    }
}

// Puts what bytes say as a number without a minus.
pub fn put_u64(out: &mut [u8], at: usize, r: Result<u64, WholeError>) -> usize
    ensures { wrote result out.new ≡ append out.old at (u64_text r) }
{
    match r {
        Ok(n) => put_value(out, at, n),
        Err(e) => put_decimal(out, at, e.number() as u64),
    }
}

// Puts what bytes say as a number with a sign.
pub fn put_i64(out: &mut [u8], at: usize, r: Result<i64, WholeError>) -> usize
    ensures { wrote result out.new ≡ append out.old at (i64_text r) }
{
    match r {
        Ok(i) => {
            let next = put_byte(out, at, b'=');
            put_integer(out, next, i)
        }
        Err(e) => put_decimal(out, at, e.number() as u64),
    }
}

// Puts the f64 that a refusal carries, bit for bit, and nothing where it carries none.
fn put_carried(out: &mut [u8], at: usize, e: DecimalError) -> usize
    ensures { wrote result out.new ≡ append out.old at (carried_text e) }
{
    match e {
        DecimalError::PrecisionLoss(x) => {
            let next = put_byte(out, at, b':');
            put_hex(out, next, scalar::pattern(x), 16)
        }
        _ => at,
    }
}

// Puts what bytes say as an f64, bit for bit.
pub fn put_f64(out: &mut [u8], at: usize, r: Result<f64, DecimalError>) -> usize
    ensures { wrote result out.new ≡ append out.old at (f64_text r) }
{
    match r {
        Ok(x) => {
            let next = put_byte(out, at, b'=');
            put_hex(out, next, scalar::pattern(x), 16)
        }
        Err(e) => {
            let number = put_decimal(out, at, e.number() as u64);
            put_carried(out, number, e)
        }
    }
}

// Puts the three readings that are exact: yes or no, u64 and i64.
fn put_exact(out: &mut [u8], at: usize, d: &[u8]) -> usize
    ensures { wrote result out.new ≡ append out.old at (exact_of d.now) }
{
    let truth = put_bool(out, at, scalar::to_bool(d));
    let first = put_byte(out, truth, b' ');
    let unsigned = put_u64(out, first, scalar::to_u64(d));
    let second = put_byte(out, unsigned, b' ');
    put_i64(out, second, scalar::to_i64(d))
}

// Puts the four readings of some bytes and their kind.
pub fn put_readings(out: &mut [u8], at: usize, d: &[u8]) -> usize
    ensures { wrote result out.new ≡ append out.old at (readings_of d.now) }
{
    let exact = put_exact(out, at, d);
    let third = put_byte(out, exact, b' ');
    let float = put_f64(out, third, scalar::to_f64(d));
    let fourth = put_byte(out, float, b' ');
    let kind = put_decimal(out, fourth, scalar::kind_number(scalar::kind(d)) as u64);
    put_byte(out, kind, b'\n')
}

// Puts how many bytes are left over after a number, and nothing for a refusal.
fn put_left(out: &mut [u8], at: usize, r: Result<i64, WholeError>, left: usize) -> usize
    ensures { wrote result out.new ≡ append out.old at (left_text r left) }
{
    match r {
        Ok(_) => {
            let next = put_byte(out, at, b' ');
            put_decimal(out, next, left as u64)
        }
        Err(_) => at,
    }
}

// Puts the number that some bytes begin with, and how many are left over after it.
pub fn put_leading(out: &mut [u8], at: usize, d: &[u8]) -> usize
    ensures { wrote result out.new ≡ append out.old at (leading_of d.now) }
{
    let read = scalar::to_i64_t(d);
    let number = put_i64(out, at, read);
    let next = put_left(out, number, read, scalar::to_i64_rest(d).len());
    put_byte(out, next, b'\n')
}
