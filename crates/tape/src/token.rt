// A token by value: a code and two words. Whoever lays one down makes it by name, and whoever reads one asks what it is.
ghost use Rattle.std.specs.Prelude.{◌≡◌};
ghost use Rattle.tape.specs.Token.{container_code, container_named, scalar_code, scalar_named, is_scalar_code, may_be_empty, is_header, quoted_kind};
ghost use Rattle.tape.specs.Token.{flag_word, flag_of, stores_flag};
ghost use Rattle.tape.specs.Token.{opener_of, end_of, scalar_of, operator_of, mixed_container_token, container_of, standing_of, headed};

use crate::codes;

// A token's three words. All of them are 0 where no token stands.
#[derive(Clone, Copy, PartialEq, Eq)]
pub struct Token {
    pub code: u32,
    pub a: u32,
    pub b: u32,
}

// The two kinds of container, each with its code.
#[derive(Clone, Copy, PartialEq, Eq)]
pub enum ContainerKind {
    Array = 1,
    Object = 2,
}

// The six kinds of scalar, each with its code. A QuotedEscape is a quoted run in which a backslash took part.
#[derive(Clone, Copy, PartialEq, Eq)]
pub enum ScalarKind {
    Unquoted = 4,
    Quoted = 5,
    Parameter = 6,
    UndefinedParameter = 7,
    Header = 10,
    QuotedEscape = 11,
}

// A token seen as a container: its kind, its link (the index of its End or, while it is open, of its parent) and its
// stored flag.
#[derive(Clone, Copy)]
pub struct Container {
    pub kind: ContainerKind,
    pub link: u32,
    pub mixed: bool,
}

// What a token is to a brace or an operator that follows it: one of three, or anything else. No variant carries a value, so an option of
// three would have two matches for the one.
#[derive(Clone, Copy)]
pub enum Standing {
    Unquoted,
    OtherScalar,
    End,
    Nothing,
}

// What is read where no token stands.
pub const NO_TOKEN: Token = Token {
    code: codes::NO_TOKEN,
    a: 0,
    b: 0,
};

// The two numbers of an opener's second word.
const UNMIXED: u32 = 0;

const MIXED: u32 = 1;

// The code of a container of a kind.
fn container_number(kind: ContainerKind) -> u32
    ensures { result ≡ container_code kind }
{
    kind as u32
}

// The code of a scalar of a kind.
fn scalar_number(kind: ScalarKind) -> u32
    ensures { result ≡ scalar_code kind }
{
    kind as u32
}

// The kind of scalar that a code names.
#[tactic(auto, unfolding(crate::specs::Token::scalar_named))]
pub fn scalar_named(code: u32) -> Option<ScalarKind>
    ensures { result ≡ scalar_named code }
{
    match code {
        codes::UNQUOTED => Some(ScalarKind::Unquoted),
        codes::QUOTED => Some(ScalarKind::Quoted),
        codes::PARAMETER => Some(ScalarKind::Parameter),
        codes::UNDEFINED_PARAMETER => Some(ScalarKind::UndefinedParameter),
        codes::HEADER => Some(ScalarKind::Header),
        codes::QUOTED_ESCAPE => Some(ScalarKind::QuotedEscape),
        _ => None,
    }
}

// The kind of container whose openers have a code.
#[tactic(auto, unfolding(crate::specs::Token::container_named))]
fn container_named(code: u32) -> Option<ContainerKind>
    ensures { result ≡ container_named code }
{
    match code {
        codes::ARRAY => Some(ContainerKind::Array),
        codes::OBJECT => Some(ContainerKind::Object),
        _ => None,
    }
}

// Whether a code is that of a scalar.
fn is_scalar_code(code: u32) -> bool
    ensures { result ≡ is_scalar_code code }
{
    scalar_named(code).is_some()
}

// The kind of a quoted run, by whether a backslash took part in it.
pub fn quoted_kind(escaped: bool) -> ScalarKind
    ensures { result ≡ quoted_kind escaped }
{
    if escaped {
        return ScalarKind::QuotedEscape;
    }
    ScalarKind::Quoted
}

// Whether a scalar of a kind may have a view of no byte, as what stands in quotes may.
pub fn may_be_empty(kind: ScalarKind) -> bool
    ensures { result ≡ may_be_empty kind }
{
    matches!(kind, ScalarKind::Quoted | ScalarKind::QuotedEscape)
}

// Whether a kind of scalar is a Header, which has a container next.
pub fn is_header(kind: ScalarKind) -> bool
    ensures { result ≡ is_header kind }
{
    kind == ScalarKind::Header
}

// An opener's second word, which stores its mixed flag.
fn flag_number(mixed: bool) -> u32
    ensures { result ≡ flag_word mixed }
{
    if mixed {
        return MIXED;
    }
    UNMIXED
}

// The flag that an opener's second word stores.
fn flag_told(word: u32) -> bool
    ensures { result ≡ flag_of word }
{
    word == MIXED
}

// Whether a word is one that stores a flag.
pub(crate) fn stores_flag(word: u32) -> bool
    ensures { result ≡ stores_flag word }
{
    word == flag_number(flag_told(word))
}

// A container's opener, with its link and its stored flag.
pub fn opener(kind: ContainerKind, link: u32, mixed: bool) -> Token
    ensures { result ≡ opener_of kind link mixed }
{
    Token {
        code: container_number(kind),
        a: link,
        b: flag_number(mixed),
    }
}

// The End that names its opener.
pub fn end(opener: u32) -> Token
    ensures { result ≡ end_of opener }
{
    Token {
        code: codes::END,
        a: opener,
        b: 0,
    }
}

// A scalar whose view starts at an offset and has a length.
pub fn scalar(kind: ScalarKind, offset: u32, length: u32) -> Token
    ensures { result ≡ scalar_of kind offset length }
{
    Token {
        code: scalar_number(kind),
        a: offset,
        b: length,
    }
}

// An operator by its number.
pub fn operator(number: u32) -> Token
    ensures { result ≡ operator_of number }
{
    Token {
        code: codes::OPERATOR,
        a: number,
        b: 0,
    }
}

// The mark that a container turns from pairs to values, or back.
pub fn mixed_container() -> Token
    ensures { result ≡ mixed_container_token }
{
    Token {
        code: codes::MIXED_CONTAINER,
        a: 0,
        b: 0,
    }
}

impl Token {
    // The token as a container, or none.
    #[tactic(auto, unfolding(crate::specs::Token::container_of, crate::specs::Token::container_named))]
    pub fn container(self) -> Option<Container>
        ensures { result ≡ container_of self }
    {
        Some(Container {
            kind: container_named(self.code)?,
            link: self.a,
            mixed: flag_told(self.b),
        })
    }

    // What the token is to what follows it.
    #[tactic(auto, unfolding(crate::specs::Token::standing_of))]
    pub fn standing(self) -> Standing
        ensures { result ≡ standing_of self }
    {
        let code = self.code;
        if code == codes::UNQUOTED {
            return Standing::Unquoted;
        }
        if is_scalar_code(code) {
            return Standing::OtherScalar;
        }
        if code == codes::END {
            return Standing::End;
        }
        Standing::Nothing
    }

    // The same view as a Header.
    pub fn as_header(self) -> Token
        ensures { result ≡ headed self }
    {
        scalar(ScalarKind::Header, self.a, self.b)
    }
}
