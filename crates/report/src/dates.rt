// A date as a line, which is what records of the kinds `D` and `Y` are answered with.
ghost use Rattle.std.specs.Prelude.{◌≡◌};
ghost use Rattle.put.specs.Append.{wrote, append};
ghost use Rattle.report.specs.Dates.{year_month_day, date_text, date_line, refusal_text, told_text, day_line};

use crate::numbers::put_decimal;
use crate::readings::put_value;
use crate::refusals;
use crate::tokens::put_field;
use date::{Date, DateError};
use put::put_byte;
use scalar::Numbered;

// Puts an `=`, and year, month and day.
fn put_year_month_day(out: &mut [u8], at: usize, date: Date) -> usize
    ensures { wrote result out.new ≡ append out.old at (year_month_day date) }
{
    let year = put_value(out, at, date.year as u64);
    let month = put_field(out, year, date.month as u64);
    put_field(out, month, date.day as u64)
}

// Puts a date with its hour and its day count, or the refusal's number.
fn put_read(out: &mut [u8], at: usize, r: Result<Date, DateError>) -> usize
    ensures { wrote result out.new ≡ append out.old at (date_text r) }
{
    match r {
        Ok(date) => {
            let day = put_year_month_day(out, at, date);
            let hour = put_field(out, day, date.hour as u64);
            put_field(out, hour, date::to_days(date).unwrap_or(0) as u64)
        }
        Err(e) => put_decimal(out, at, e.number() as u64),
    }
}

// Puts the date that some bytes say, with its day count.
pub fn put_date(out: &mut [u8], at: usize, d: &[u8]) -> usize
    ensures { wrote result out.new ≡ append out.old at (date_line d.now) }
{
    let next = put_read(out, at, date::to_date(d));
    put_byte(out, next, b'\n')
}

// Puts that a date is refused, and the refusal's number.
fn put_refusal(out: &mut [u8], at: usize, e: DateError) -> usize
    ensures { wrote result out.new ≡ append out.old at (refusal_text e) }
{
    refusals::put_refusal(out, at, e.number() as u64)
}

// Puts a date, or that it is refused.
fn put_told(out: &mut [u8], at: usize, r: Result<Date, DateError>) -> usize
    ensures { wrote result out.new ≡ append out.old at (told_text r) }
{
    match r {
        Ok(date) => put_year_month_day(out, at, date),
        Err(e) => put_refusal(out, at, e),
    }
}

// Puts the date of a day count.
pub fn put_date_of(out: &mut [u8], at: usize, days: u32) -> usize
    ensures { wrote result out.new ≡ append out.old at (day_line days) }
{
    let next = put_told(out, at, date::from_days(days));
    put_byte(out, next, b'\n')
}
