// The parser's machine by value: its states, why a text is refused, what a turn and a parse answer, and how a machine moves on.
// Nothing here writes on a tape but what ends a parse (`finish`).
#![tactic(auto)]

ghost use Rattle.std.specs.Prelude.{◌≡◌, ◌-◌};
ghost use Rattle.machine.specs.Refusals.{number, place};
ghost use Rattle.machine.specs.Machine.{byte_at, to, within, mixed_on, is_key, is_parse_open};

pub mod bytes;
pub mod finish;
pub mod parents;
pub mod start;

// The five states.
#[derive(Clone, Copy, PartialEq, Eq)]
pub enum State {
    Key,
    KeyValueSeparator,
    ObjectValue,
    ParseOpen,
    ArrayValue,
}

// In which state the parser is, whether mixed is in force, how many tokens stand on the tape, where the text goes on, and
// inside which opener (0 for none). The fields' order lays the place over a refusal's place in a `Result<Turn, Refusal>`,
// which then passes from turn to turn in registers.
#[derive(Clone, Copy)]
pub struct Machine {
    pub state: State,
    pub mixed: bool,
    pub count: u32,
    pub at: usize,
    pub parent: u32,
}

// Why a text is refused, with the place where it has one.
#[derive(Clone, Copy)]
pub enum Refusal {
    TooLong,
    Eof,
    StackEmpty(usize),
    NoHeader(usize),
    NoValue(usize),
    MixedParameter(usize),
    NothingPrecedes(usize),
    UnknownOperator(usize),
    NoParameter(usize),
    OpenName(usize),
    Full,
}

impl Refusal {
    // Document 01's number for a refusal. A match, since a variant that carries a place has no discriminant.
    pub fn number(self) -> u32
        ensures { result ≡ number self }
    {
        match self {
            Refusal::TooLong => 1,
            Refusal::Eof => 2,
            Refusal::StackEmpty(_) => 3,
            Refusal::NoHeader(_) => 4,
            Refusal::NoValue(_) => 5,
            Refusal::MixedParameter(_) => 6,
            Refusal::NothingPrecedes(_) => 7,
            Refusal::UnknownOperator(_) => 8,
            Refusal::NoParameter(_) => 9,
            Refusal::OpenName(_) => 10,
            Refusal::Full => 11,
        }
    }

    // The place where a refusal stands, 0 where it has none.
    pub fn place(self) -> usize
        ensures { result ≡ place self }
    {
        match self {
            Refusal::TooLong | Refusal::Eof | Refusal::Full => 0,
            Refusal::StackEmpty(at)
            | Refusal::NoHeader(at)
            | Refusal::NoValue(at)
            | Refusal::MixedParameter(at)
            | Refusal::NothingPrecedes(at)
            | Refusal::UnknownOperator(at)
            | Refusal::NoParameter(at)
            | Refusal::OpenName(at) => at,
        }
    }
}

// What a turn answers that refuses nothing: the machine for the next one, or the count of a finished tape.
#[derive(Clone, Copy)]
pub enum Turn {
    Next(Machine),
    Done(u32),
}

// What a parse answers that refuses nothing: how many tokens stand on the tape, and whether the text began with a BOM.
#[derive(Clone, Copy)]
pub struct Parsed {
    pub count: u32,
    pub bom: bool,
}

impl Machine {
    // The machine at another place, in another state, with another count.
    pub fn to(self, at: usize, state: State, count: u32) -> Machine
        ensures { result ≡ to self at state count }
    {
        Machine {
            at,
            state,
            count,
            ..self
        }
    }

    // The machine inside another opener.
    pub fn within(self, parent: u32) -> Machine
        ensures { result ≡ within self parent }
    {
        Machine { parent, ..self }
    }
}

// The byte at a place, 0 past the end. It, `less` and `before` are std's by another name, and stay: docs/CONTRACTS.md names their promises.
pub fn byte_at(text: &[u8], at: usize) -> u8
    ensures { result ≡ byte_at text.now at }
{
    text.get(at).copied().unwrap_or(0)
}

// A number less some, 0 where that is less than nothing.
pub fn less(n: u32, some: u32) -> u32
    ensures { result ≡ n - some }
{
    n.saturating_sub(some)
}

// The machine with mixed on, in ArrayValue, after a MixedContainer was put in.
pub fn mixed_on(m: Machine, count: u32) -> Machine
    ensures { result ≡ mixed_on m count }
{
    Machine {
        state: State::ArrayValue,
        mixed: true,
        count,
        ..m
    }
}

// Whether a state is Key.
pub fn is_key(state: State) -> bool
    ensures { result ≡ is_key state }
{
    state == State::Key
}

// Whether a state is ParseOpen.
pub fn is_parse_open(state: State) -> bool
    ensures { result ≡ is_parse_open state }
{
    state == State::ParseOpen
}

// The place one before another, which the refusals of operators name.
pub fn before(at: usize) -> usize
    ensures { result ≡ at - 1 }
{
    at.saturating_sub(1)
}
