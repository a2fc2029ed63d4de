// Dates as saves write them, `1936.1.12` or with an hour `1936.1.12.24`, and days counted from 1.1.1 in a calendar of 365 days each
// year. Every call is total: it answers for any bytes, any date that a caller puts together, and any count.
#![tactic(auto)]

mod calendar;
mod reading;
pub mod refusals;

pub use calendar::{Date, NO_DATE, from_days, in_range, to_days};
pub use reading::to_date;
pub use refusals::DateError;
