// The operators of the save format: eight kinds, their numbers and signs, and which of them stands at a place.
#![tactic(auto)]

ghost use Rattle.std.specs.Prelude.{◌≡◌};
ghost use Rattle.operator.specs.Operators.{number_of, numbered, is_equal, symbol_of, symbol_bytes, sighted};

// The operators, each with the number that stands for it on the tape.
#[derive(Clone, Copy, PartialEq, Eq)]
pub enum Operator {
    LessThan = 1,
    LessThanEqual = 2,
    GreaterThan = 3,
    GreaterThanEqual = 4,
    NotEqual = 5,
    Exact = 6,
    Equal = 7,
    Exists = 8,
}

// An operator that stands in a text, and how many bytes it takes there.
#[derive(Clone, Copy)]
pub struct Sighted {
    pub operator: Operator,
    pub width: usize,
}

// An operator's sign: one byte, or two where second is not 0.
#[derive(Clone, Copy)]
pub struct Symbol {
    pub first: u8,
    pub second: u8,
}

impl Operator {
    // The number that stands for an operator on the tape.
    pub fn number(self) -> u32
        ensures { result ≡ number_of self }
    {
        self as u32
    }

    // Whether an operator is `=`, which pairs a key with its value and is no token there.
    pub fn is_equal(self) -> bool
        ensures { result ≡ is_equal self }
    {
        self == Operator::Equal
    }

    // The two bytes by which an operator is written, by value.
    pub fn symbol(self) -> Symbol
        ensures { result ≡ symbol_of self }
    {
        match self {
            Operator::LessThan => Symbol {
                first: b'<',
                second: 0,
            },
            Operator::LessThanEqual => Symbol {
                first: b'<',
                second: b'=',
            },
            Operator::GreaterThan => Symbol {
                first: b'>',
                second: 0,
            },
            Operator::GreaterThanEqual => Symbol {
                first: b'>',
                second: b'=',
            },
            Operator::NotEqual => Symbol {
                first: b'!',
                second: b'=',
            },
            Operator::Exact => Symbol {
                first: b'=',
                second: b'=',
            },
            Operator::Equal => Symbol {
                first: b'=',
                second: 0,
            },
            Operator::Exists => Symbol {
                first: b'?',
                second: b'=',
            },
        }
    }

    // The bytes by which an operator is written.
    pub fn spelling(self) -> &'static [u8]
        ensures { result.now ≡ symbol_bytes self }
    {
        match self {
            Operator::LessThan => b"<",
            Operator::LessThanEqual => b"<=",
            Operator::GreaterThan => b">",
            Operator::GreaterThanEqual => b">=",
            Operator::NotEqual => b"!=",
            Operator::Exact => b"==",
            Operator::Equal => b"=",
            Operator::Exists => b"?=",
        }
    }
}

// The operator that stands on the tape by a number.
#[tactic(auto, unfolding(crate::specs::Operators::numbered))]
pub fn operator_numbered(number: u32) -> Option<Operator>
    ensures { result ≡ numbered number }
{
    match number {
        1 => Some(Operator::LessThan),
        2 => Some(Operator::LessThanEqual),
        3 => Some(Operator::GreaterThan),
        4 => Some(Operator::GreaterThanEqual),
        5 => Some(Operator::NotEqual),
        6 => Some(Operator::Exact),
        7 => Some(Operator::Equal),
        8 => Some(Operator::Exists),
        _ => None,
    }
}

// The operator that two bytes begin with, a line for each in the order of their numbers; `0..=b'<' | b'>'..=255` is every byte but `=`, the 0
// that stands for the text's end among them. A line returns at once: where the lines met first, `bench/run` had the parser slower.
#[tactic(auto, unfolding(crate::specs::Operators::sighted))]
pub fn operator_at(first: u8, second: u8) -> Option<Sighted>
    ensures { result ≡ sighted first second }
{
    match first {
        b'<' => match second {
            0..=b'<' | b'>'..=255 => return sign(Operator::LessThan, 1),
            b'=' => return sign(Operator::LessThanEqual, 2),
        },
        b'>' => match second {
            0..=b'<' | b'>'..=255 => return sign(Operator::GreaterThan, 1),
            b'=' => return sign(Operator::GreaterThanEqual, 2),
        },
        b'!' => match second {
            b'=' => return sign(Operator::NotEqual, 2),
            0..=b'<' | b'>'..=255 => return None,
        },
        b'=' => match second {
            b'=' => return sign(Operator::Exact, 2),
            0..=b'<' | b'>'..=255 => return sign(Operator::Equal, 1),
        },
        b'?' => match second {
            b'=' => return sign(Operator::Exists, 2),
            0..=b'<' | b'>'..=255 => return None,
        },
        0..=b' ' | b'"'..=b';' | b'@'..=255 => return None,
    }
}

// An operator that stands, and how many bytes it takes.
fn sign(operator: Operator, width: usize) -> Option<Sighted>
    ensures { result ≡ Some (record { operator = operator; width = width }) }
{
    Some(Sighted { operator, width })
}
