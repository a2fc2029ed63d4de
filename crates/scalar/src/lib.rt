// What the bytes of one value say: yes or no, a whole number, a decimal, or a name. Each reading
// answers for every slice, and its contract says which answer, byte by byte.
#![tactic(auto)]

mod digits;
pub mod errors;
mod float;
mod kinds;
mod truth;
mod whole;

pub use digits::{Digits, digits_at};
pub use errors::{
    ANSWERED, BoolError, DecimalError, Numbered, PRECISION_LOSS, WholeError, f64_value, refusal,
};
pub use float::{pattern, to_f64};
pub use kinds::{ReadingKind, kind, kind_number};
pub use truth::to_bool;
pub use whole::{magnitude, to_i64, to_i64_rest, to_i64_t, to_u64};
