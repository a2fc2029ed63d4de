// A date in the bytes of a scalar: year, month and day, and an optional hour, with points between them.
ghost use Rattle.std.specs.Prelude.{◌≡◌, min};
ghost use Rattle.date.specs.Calendar.{ranged as ranged-of};
ghost use Rattle.date.specs.Reading.{past_all, part_at as part_in, pointed_part as pointed-in, date_read};

use crate::calendar::{Date, FIRST_HOUR, MOST_YEAR, in_range};
use crate::refusals::DateError;

// The least number above every part's range. It stands for all above it.
const PAST_ALL: u32 = MOST_YEAR + 1;

// A number, or the least above every range.
fn bounded(n: u64) -> u32
    ensures { result ≡ min n past_all }
{
    n.min(PAST_ALL as u64) as u32
}

// The part that stands at a place: the number of its digits, one or more, and the place after them.
fn part_at(d: &[u8], at: usize) -> Option<(u32, usize)>
    ensures { result ≡ part_in d.now at }
{
    let run = scalar::digits_at(d, at);
    if at < run.end {
        return Some((bounded(run.number), run.end));
    }
    None
}

// The part that stands behind a point at a place.
#[tactic(auto, using(crate::proofs::Shapes::pointed_here, crate::proofs::Shapes::pointed_other))]
fn pointed_part(d: &[u8], at: usize) -> Option<(u32, usize)>
    ensures { result ≡ pointed-in d.now at }
{
    match d.get(at) {
        Some(b'.') => part_at(d, at + 1),
        _ => None,
    }
}

// A date that the calendar has, or that it has no such date.
#[tactic(auto, using(crate::proofs::Ranges::ranged_in, crate::proofs::Ranges::ranged_out))]
fn ranged(date: Date) -> Result<Date, DateError>
    ensures { result ≡ ranged-of date }
{
    if in_range(date) {
        return Ok(date);
    }
    Err(DateError::OutOfRange)
}

// Reads a date. All of it must have the shape before any part is held against its range.
#[tactic(auto, using(crate::proofs::Readings::no_year, crate::proofs::Readings::no_month, crate::proofs::Readings::no_day, crate::proofs::Readings::day_last, crate::proofs::Readings::no_hour, crate::proofs::Readings::hour_followed, crate::proofs::Readings::hour_of_0, crate::proofs::Readings::hour_last))]
pub fn to_date(d: &[u8]) -> Result<Date, DateError>
    ensures { result ≡ date_read d.now }
{
    let (year, after_year) = part_at(d, 0).ok_or(DateError::NotADate)?;
    let (month, after_month) = pointed_part(d, after_year).ok_or(DateError::NotADate)?;
    let (day, after_day) = pointed_part(d, after_month).ok_or(DateError::NotADate)?;
    if d.len() <= after_day {
        return ranged(Date {
            year,
            month,
            day,
            hour: 0,
        });
    }
    let (hour, after_hour) = pointed_part(d, after_day).ok_or(DateError::NotADate)?;
    if after_hour < d.len() {
        return Err(DateError::NotADate);
    }
    if hour < FIRST_HOUR {
        return Err(DateError::OutOfRange);
    }
    ranged(Date {
        year,
        month,
        day,
        hour,
    })
}
