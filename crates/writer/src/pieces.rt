// What a token is to the writer.
ghost use Rattle.std.specs.Prelude.{◌≡◌};
ghost use Rattle.writer.specs.Text.{still_first};
ghost use Rattle.writer.specs.Pieces.{scalar_piece, bare_piece, piece_of};

use tape::shape;
use tape::shape::Shape;
use tape::token::{ContainerKind, ScalarKind, Token};

// A scalar with or without quotes, a Header, an operator's sign, a MixedContainer, a container's opener, or what cannot be written.
#[derive(Clone, Copy)]
pub enum Piece {
    Scalar {
        quoted: bool,
        offset: u32,
        length: u32,
    },
    Heading {
        offset: u32,
        length: u32,
    },
    Sign {
        number: u32,
    },
    Mixed,
    Opener {
        kind: ContainerKind,
        end: u32,
    },
    Other,
}

// What a scalar of a kind is to the writer.
fn scalar_piece(kind: ScalarKind, offset: u32, length: u32) -> Piece
    ensures { result ≡ scalar_piece kind offset length }
{
    match kind {
        ScalarKind::Unquoted => Piece::Scalar {
            quoted: false,
            offset,
            length,
        },
        ScalarKind::Quoted | ScalarKind::QuotedEscape => Piece::Scalar {
            quoted: true,
            offset,
            length,
        },
        ScalarKind::Header => Piece::Heading { offset, length },
        ScalarKind::Parameter | ScalarKind::UndefinedParameter => Piece::Other,
    }
}

// What a token of a shape is to the writer, where it opens nothing.
fn bare_piece(shape: Option<Shape>) -> Piece
    ensures { result ≡ bare_piece shape }
{
    match shape {
        Some(
            Shape::Scalar {
                kind,
                offset,
                length,
            },
        ) => scalar_piece(kind, offset, length),
        Some(Shape::Operator { number }) => Piece::Sign { number },
        Some(Shape::MixedContainer) => Piece::Mixed,
        Some(Shape::Opener { .. }) | Some(Shape::End { .. }) | None => Piece::Other,
    }
}

// What a token is to the writer.
#[tactic(auto, unfolding(crate::specs::Pieces::piece_of))]
pub(crate) fn piece_of(t: Token) -> Piece
    ensures { result ≡ piece_of t }
{
    match t.container() {
        Some(container) => Piece::Opener {
            kind: container.kind,
            end: container.link,
        },
        None => bare_piece(shape::shape_of(t)),
    }
}

// Whether something is still the first of its body behind a piece.
pub(crate) fn still_first(first: bool, piece: Piece) -> bool
    ensures { result ≡ still_first first piece }
{
    first && matches!(piece, Piece::Mixed | Piece::Other)
}
