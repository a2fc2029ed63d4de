// Why a reading or a count is refused, by request W8's numbers.
ghost use Rattle.std.specs.Prelude.{◌≡◌, ◌<◌, ℕ};
ghost use Rattle.std.proofs.Common.{rules};
ghost use Rattle.date.specs.Refusals.{error_number_of};

use scalar::Numbered;

// Bytes that have not the shape of a date; and a part, or a count, out of range.
#[derive(Clone, Copy, PartialEq, Eq)]
pub enum DateError {
    NotADate = 51,
    OutOfRange = 52,
}

impl Numbered for DateError {
    ghost number_of = { error_number_of };

    ghost refuses = { Prim.search rules };

    fn number(self) -> u8 {
        self as u8
    }
}
