// What is due next in a body, a token at a time, so that nothing is looked at ahead.
ghost use Rattle.std.specs.Prelude.{◌≡◌};
ghost use Rattle.writer.specs.Dues.{due_in, after_scalar, after_container, to_value, due_after};

use crate::pieces::Piece;
use tape::token::ContainerKind;

// An entry of an array, or behind a MixedContainer; a key; what stands right behind a key; or the entry that is still missing.
#[derive(Clone, Copy, PartialEq, Eq)]
pub enum Due {
    Entry,
    Key,
    AfterKey,
    Value,
}

// What is due first in a container of a kind.
pub(crate) fn due_in(kind: ContainerKind) -> Due
    ensures { result ≡ due_in kind }
{
    match kind {
        ContainerKind::Array => Due::Entry,
        ContainerKind::Object => Due::Key,
    }
}

// Behind a scalar: a key's entry is next, or the next key.
fn after_scalar(due: Due) -> Due
    ensures { result ≡ after_scalar due }
{
    match due {
        Due::Entry => Due::Entry,
        Due::Key => Due::AfterKey,
        Due::AfterKey | Due::Value => Due::Key,
    }
}

// Behind a container, which is a whole entry.
fn after_container(due: Due) -> Due
    ensures { result ≡ after_container due }
{
    match due {
        Due::Entry => Due::Entry,
        Due::Key | Due::AfterKey | Due::Value => Due::Key,
    }
}

// Behind a Header, whose container is next, and behind an operator.
fn to_value(due: Due) -> Due
    ensures { result ≡ to_value due }
{
    match due {
        Due::Entry => Due::Entry,
        Due::Key | Due::AfterKey | Due::Value => Due::Value,
    }
}

// What is due behind a piece.
#[tactic(auto, unfolding(crate::specs::Dues::due_after))]
pub(crate) fn due_after(due: Due, piece: Piece) -> Due
    ensures { result ≡ due_after due piece }
{
    match piece {
        Piece::Scalar { .. } => after_scalar(due),
        Piece::Heading { .. } | Piece::Sign { .. } => to_value(due),
        Piece::Mixed => Due::Entry,
        Piece::Opener { .. } => after_container(due),
        Piece::Other => due,
    }
}
