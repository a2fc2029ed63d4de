// Why a reading refuses some bytes, with document 01's number of each refusal, and what a refusal carries.
ghost use Rattle.std.specs.Prelude.{◌≡◌, ◌<◌, ℕ};
ghost use Rattle.std.proofs.Common.{rules};
ghost use Rattle.scalar.specs.Numbers.{bool_error_number, whole_error_number, decimal_error_number, refusal_of, f64_value_of};

// No refusal: there is an answer.
pub const ANSWERED: u8 = 0;

// A number that its f64 does not hold exactly.
pub const PRECISION_LOSS: u8 = 24;

// Why bytes are no truth: they are neither yes nor no.
#[derive(Clone, Copy, PartialEq, Eq)]
pub enum BoolError {
    InvalidBool = 23,
}

// Why bytes are no whole number, or begin with none: they do not write one, or one too large.
#[derive(Clone, Copy, PartialEq, Eq)]
pub enum WholeError {
    AllDigits = 21,
    Overflow = 22,
}

// Why bytes are no decimal. A number that an f64 cannot hold comes with the nearest that can.
#[derive(Clone, Copy)]
pub enum DecimalError {
    AllDigits,
    Overflow,
    PrecisionLoss(f64),
}

// A refusal: it has a number, by which C is told of it.
pub trait Numbered: Drop {
    ghost number_of: { Self → ℕ };

    // The number of this refusal.
    fn number(self) -> u8
        ensures { result ≡ number_of self };

    // It is never 0, which tells of an answer.
    ghost refuses: { (e : Self) → 0 < number_of e };
}

impl Numbered for BoolError {
    ghost number_of = { bool_error_number };

    ghost refuses = { Prim.search rules };

    fn number(self) -> u8 {
        self as u8
    }
}

impl Numbered for WholeError {
    ghost number_of = { whole_error_number };

    ghost refuses = { Prim.search rules };

    fn number(self) -> u8 {
        self as u8
    }
}

impl Numbered for DecimalError {
    ghost number_of = { decimal_error_number };

    ghost refuses = { Prim.search rules };

    fn number(self) -> u8 {
        match self {
            DecimalError::AllDigits => WholeError::AllDigits as u8,
            DecimalError::Overflow => WholeError::Overflow as u8,
            DecimalError::PrecisionLoss(_) => PRECISION_LOSS,
        }
    }
}

// The refusal's number of what is answered, 0 where there is an answer.
pub fn refusal<T: Drop, E: Numbered>(read: Result<T, E>) -> u8
    ensures { result ≡ refusal_of E.number_of read }
{
    match read {
        Ok(_) => ANSWERED,
        Err(e) => e.number(),
    }
}

// The answer of a decimal, or what a loss of precision carries, and 0 where there is none.
pub fn f64_value(read: Result<f64, DecimalError>) -> f64
    ensures { result ≡ f64_value_of read }
{
    match read {
        Ok(x) | Err(DecimalError::PrecisionLoss(x)) => x,
        Err(_) => 0.0,
    }
}
