// What a token's words make it: the table 'Three words to a token', read from the words to the token.
ghost use Rattle.std.specs.Prelude.{◌≡◌};
ghost use Rattle.tape.specs.Shape.{bare_shape, shape_of, link_of};

use crate::token::{ScalarKind, Token};
use crate::{codes, token};

// A token with what its words say.
#[derive(Clone, Copy)]
pub enum Shape {
    Opener {
        end: u32,
    },
    MixedContainer,
    Scalar {
        kind: ScalarKind,
        offset: u32,
        length: u32,
    },
    Operator {
        number: u32,
    },
    End {
        opener: u32,
    },
}

// The token that a container's opener or an End names.
#[derive(Clone, Copy)]
pub enum Link {
    ToEnd(u32),
    ToOpener(u32),
}

// What a code and its first word make of a token whose second word is 0.
#[tactic(auto, unfolding(crate::specs::Shape::bare_shape))]
fn bare_shape(code: u32, a: u32) -> Option<Shape>
    ensures { result ≡ bare_shape code a }
{
    match code {
        codes::END => Some(Shape::End { opener: a }),
        codes::OPERATOR if codes::LEAST_OPERATOR <= a && a <= codes::GREATEST_OPERATOR => {
            Some(Shape::Operator { number: a })
        }
        codes::MIXED_CONTAINER if a == 0 => Some(Shape::MixedContainer),
        _ => None,
    }
}

// What a token's words make it; none where no token has such words.
#[tactic(auto, unfolding(crate::specs::Shape::shape_of))]
pub fn shape_of(t: Token) -> Option<Shape>
    ensures { result ≡ shape_of t }
{
    if let Some(container) = t.container() {
        return token::stores_flag(t.b).then_some(Shape::Opener {
            end: container.link,
        });
    }
    if let Some(kind) = token::scalar_named(t.code) {
        return Some(Shape::Scalar {
            kind,
            offset: t.a,
            length: t.b,
        });
    }
    if t.b == 0 {
        return bare_shape(t.code, t.a);
    }
    None
}

// The token that a token names.
pub fn link_of(t: Token) -> Option<Link>
    ensures { result ≡ link_of t }
{
    match shape_of(t)? {
        Shape::Opener { end } => Some(Link::ToEnd(end)),
        Shape::End { opener } => Some(Link::ToOpener(opener)),
        Shape::MixedContainer | Shape::Scalar { .. } | Shape::Operator { .. } => None,
    }
}
