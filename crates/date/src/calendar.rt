// The calendar: which dates there are, and their day counts, from 1.1.1, which is day 0. No year is a leap year, so that neither way goes
// over years: a product or a division, and the table of months.
ghost use Rattle.std.specs.Prelude.{◌≡◌, ◌≤◌, ◌<◌};
ghost use Rattle.date.specs.Calendar.{within as is_within, days_in, days_before, year_days, months, in_range, days_of, month_at, date_at};

use crate::refusals::DateError;

// The years, the months of each and the hours of a day, each counted from 1.
pub(crate) const MOST_YEAR: u32 = 9999;

const MONTHS: usize = 12;

pub(crate) const FIRST_HOUR: u32 = 1;

const MOST_HOUR: u32 = 24;

// The days of each month.
const MONTH_DAYS: [u32; MONTHS] = [
    31, // January
    28, // February
    31, // March
    30, // April
    31, // May
    30, // June
    31, // July
    31, // August
    30, // September
    31, // October
    30, // November
    31, // December
];

// The days of a year.
const YEAR_DAYS: u32 = 365;

// The day count of the last date.
const LAST_DAY: u32 = MOST_YEAR * YEAR_DAYS - 1;

// A date; its hour is 0 where none is told.
#[derive(Clone, Copy)]
pub struct Date {
    pub year: u32,
    pub month: u32,
    pub day: u32,
    pub hour: u32,
}

// What stands for a date where there is none.
pub const NO_DATE: Date = Date {
    year: 0,
    month: 0,
    day: 0,
    hour: 0,
};

// Whether a number is from 1 to another.
#[tactic(auto, unfolding(crate::specs::Calendar::within))]
fn within(n: u32, most: u32) -> bool
    ensures { result ≡ is_within n most }
{
    1 <= n && n <= most
}

// The days of a month.
fn days_in(month: u32) -> u32
    requires { (1 ≤ month) × (month ≤ months) }
    ensures { result ≡ days_in month }
{
    MONTH_DAYS[(month - 1) as usize]
}

// Whether the calendar has a date.
#[tactic(auto, using(crate::proofs::Ranges::is_within), unfolding(crate::specs::Calendar::in_range))]
pub fn in_range(date: Date) -> bool
    ensures { result ≡ in_range date }
{
    within(date.year, MOST_YEAR)
        && within(date.month, MONTHS as u32)
        && within(date.day, days_in(date.month))
        && date.hour <= MOST_HOUR
}

// The days of a year before a month.
fn days_before(month: u32) -> u32
    requires { (1 ≤ month) × (month ≤ months) }
    ensures { result ≡ days_before month }
{
    let mut days = 0;
    for m in 1..month {
        days += days_in(m);
    }
    days
}

// The day count of a date. The hour is left out.
#[tactic(auto, using(crate::proofs::Ranges::parts_in, crate::proofs::Months::before_year), unfolding(crate::specs::Calendar::days_of, crate::specs::Calendar::count_of))]
pub fn to_days(date: Date) -> Result<u32, DateError>
    ensures { result ≡ days_of date }
{
    if !in_range(date) {
        return Err(DateError::OutOfRange);
    }
    let years = (date.year - 1) * YEAR_DAYS;
    let months = days_before(date.month);
    let days = date.day - 1;
    Ok(years + months + days)
}

// The month of a day of the year, which is counted from 0.
fn month_of(day: u32) -> u32
    requires { day < year_days }
    ensures { result ≡ month_at day }
{
    let mut left = day;
    for month in 1..MONTHS as u32 {
        let days = days_in(month);
        if left < days {
            return month;
        }
        left -= days;
    }
    MONTHS as u32
}

// The date of a day count, without an hour. It is never `NotADate`.
pub fn from_days(days: u32) -> Result<Date, DateError>
    ensures { result ≡ date_at days }
{
    if LAST_DAY < days {
        return Err(DateError::OutOfRange);
    }
    let year = days / YEAR_DAYS + 1;
    let of_year = days % YEAR_DAYS;
    let month = month_of(of_year);
    let day = of_year - days_before(month) + 1;
    Ok(Date {
        year,
        month,
        day,
        hour: 0,
    })
}
