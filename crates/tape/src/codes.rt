// The first word of a token, its code: the kinds of containers and scalars are numbered where they stand (`token`), the others here; and the
// numbers that an operator's second word may be.
use crate::token::{ContainerKind, ScalarKind};

pub const ARRAY: u32 = ContainerKind::Array as u32;

pub const OBJECT: u32 = ContainerKind::Object as u32;

pub const MIXED_CONTAINER: u32 = 3;

pub const UNQUOTED: u32 = ScalarKind::Unquoted as u32;

pub const QUOTED: u32 = ScalarKind::Quoted as u32;

pub const PARAMETER: u32 = ScalarKind::Parameter as u32;

pub const UNDEFINED_PARAMETER: u32 = ScalarKind::UndefinedParameter as u32;

pub const OPERATOR: u32 = 8;

pub const END: u32 = 9;

pub const HEADER: u32 = ScalarKind::Header as u32;

pub const QUOTED_ESCAPE: u32 = ScalarKind::QuotedEscape as u32;

// The operators are numbered from the first of these to the second.
pub const LEAST_OPERATOR: u32 = 1;

pub const GREATEST_OPERATOR: u32 = 8;

// Where no token stands, its words are read as zeros.
pub const NO_TOKEN: u32 = 0;
