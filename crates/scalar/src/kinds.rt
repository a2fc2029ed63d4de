// The kind of a scalar, by its form and its size: neither the i64 nor the f64 is read for it.
ghost use Rattle.std.specs.Prelude.{◌≡◌, ◌+◌, ◌<◌, length, drop};
ghost use Rattle.scalar.specs.Digits.{digit_run, gathered};
ghost use Rattle.scalar.specs.Numbers.{kind_number_of};
ghost use Rattle.scalar.specs.Kind.{kind_unpointed, kind_pointed, kind_after_point, kind_after_sign, number_or_name as number-or-name-of, kind_of};

use crate::digits::{Gathered, exceeds, gather};
use crate::float::{MOST_PLACES, Tail, carries_past, tail_at};
use crate::truth::to_bool;
use crate::whole::MOST_I64;

// What an unquoted scalar is, by document 01's numbers.
#[derive(Clone, Copy, PartialEq, Eq)]
pub enum ReadingKind {
    Bool = 1,
    Whole = 2,
    Decimal = 3,
    Name = 4,
}

// The number of a kind.
pub fn kind_number(k: ReadingKind) -> u8
    ensures { result ≡ kind_number_of k }
{
    k as u8
}

// The kind of a scalar's bytes.
#[tactic(auto, using(crate::proofs::Forms::truth, crate::proofs::Forms::no_truth))]
pub fn kind(d: &[u8]) -> ReadingKind
    ensures { result ≡ kind_of d.now }
{
    match to_bool(d) {
        Ok(_) => ReadingKind::Bool,
        Err(_) => number_or_name(d),
    }
}

// The kind of bytes that are neither `yes` nor `no`, by their sign.
fn number_or_name(d: &[u8]) -> ReadingKind
    ensures { result ≡ number-or-name-of d.now }
{
    match d {
        [] => ReadingKind::Name,
        [b'-', ..] => after_sign(d, 1, true),
        [b'+', ..] => after_sign(d, 1, false),
        _ => after_sign(d, 0, false),
    }
}

// The kind of what stands after a sign of `sign` bytes.
fn after_sign(d: &[u8], sign: usize, negative: bool) -> ReadingKind
    ensures { result ≡ kind_after_sign negative (drop sign d.now) }
{
    let whole = gather(d, sign, 0);
    let at = whole.at;
    match tail_at(d, at) {
        Tail::End => unpointed(d, sign, negative, whole),
        Tail::Point => after_point(d, sign, whole),
        Tail::Other => ReadingKind::Name,
    }
}

// The kind of digits that no point follows: an `f` may, and then they are no number.
#[tactic(auto, using(crate::proofs::Forms::unpointed_followed, crate::proofs::Forms::unpointed_bare, crate::proofs::Forms::unpointed_past, crate::proofs::Forms::unpointed_whole, crate::proofs::Forms::unpointed_negative, crate::proofs::Forms::unpointed_decimal))]
fn unpointed(d: &[u8], sign: usize, negative: bool, whole: Gathered) -> ReadingKind
    requires { whole ≡ gathered d.now sign 0 }
    ensures { result ≡ kind_unpointed negative (drop sign d.now) }
{
    if whole.at < d.len() || whole.at == sign || exceeds(d, sign) {
        return ReadingKind::Name;
    }
    if whole.total <= MOST_I64 {
        return ReadingKind::Whole;
    }
    if negative {
        ReadingKind::Name
    } else {
        ReadingKind::Decimal
    }
}

// The kind of digits with a point behind them and what stands after it.
fn after_point(d: &[u8], sign: usize, whole: Gathered) -> ReadingKind
    requires { (whole ≡ gathered d.now sign 0) × (whole.at < length d.now) }
    ensures { result ≡ kind_after_point (digit_run (drop sign d.now)) (drop (whole.at + 1) d.now) }
{
    let at = whole.at + 1;
    let end = gather(d, at, 0).at;
    match tail_at(d, end) {
        Tail::End => pointed(d, sign, whole, end - at),
        Tail::Point | Tail::Other => ReadingKind::Name,
    }
}

// The kind of digits about a point, of which so many places stand after it.
fn pointed(d: &[u8], sign: usize, whole: Gathered, places: usize) -> ReadingKind
    requires { (whole ≡ gathered d.now sign 0) × (whole.at < length d.now) × (places ≡ length (digit_run (drop (whole.at + 1) d.now))) }
    ensures { result ≡ kind_pointed (digit_run (drop sign d.now)) (digit_run (drop (whole.at + 1) d.now)) }
{
    if (whole.at - sign) + places == 0 {
        return ReadingKind::Name;
    }
    if places > MOST_PLACES {
        return ReadingKind::Name;
    }
    if carries_past(d, sign, whole) {
        ReadingKind::Name
    } else {
        ReadingKind::Decimal
    }
}
