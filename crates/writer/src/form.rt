// Whether a sheet is of the form that can be written, at whatever depth and without recursion: the direct tokens of each body are
// walked once, and links skip what stands inside them.
ghost use Rattle.std.specs.Prelude.{◌≡◌};
ghost use Rattle.writer.specs.Form.{takes_entry, takes_sign, may_end, takes};
ghost use Rattle.writer.specs.Write.{formed};
ghost use Rattle.writer.specs.Forest.{stretch};
ghost use Rattle.writer.specs.Ranges.{Range, Whole, Inside, body_form, inside_form};
ghost use Rattle.writer.specs.Source.{tokens};

use crate::dues::{Due, due_after, due_in};
use crate::pieces::Piece;
use crate::ranges::behind;
use crate::source::Source;

// Whether an entry of a pair may stand where something is due.
fn takes_entry(due: Due) -> bool
    ensures { result ≡ takes_entry due }
{
    due != Due::Key
}

// Whether an operator may stand where something is due.
fn takes_sign(due: Due) -> bool
    ensures { result ≡ takes_sign due }
{
    matches!(due, Due::Entry | Due::AfterKey)
}

// Whether pairs may end where something is due.
fn may_end(due: Due) -> bool
    ensures { result ≡ may_end due }
{
    matches!(due, Due::Entry | Due::Key)
}

// Whether a piece may stand where something is due.
#[tactic(auto, unfolding(crate::specs::Form::takes))]
fn takes(due: Due, piece: Piece) -> bool
    ensures { result ≡ takes due piece }
{
    match piece {
        Piece::Scalar { .. } => true,
        Piece::Heading { .. } | Piece::Opener { .. } => takes_entry(due),
        Piece::Sign { .. } => takes_sign(due),
        Piece::Mixed => may_end(due),
        Piece::Other => false,
    }
}

// Whether the direct tokens of a body are what is due in it.
fn body_formed(source: Source<'_>, from: usize, end: usize, first: Due) -> bool
    requires { Range (tokens source) from end }
    ensures { result ≡ body_form (stretch (tokens source.entry) from end) first }
{
    // Counted by hand: the walk goes on behind the End of what opened, which no range gives.
    let mut i = from;
    let mut due = first;
    while i < end {
        let piece = source.piece(i);
        if !takes(due, piece) {
            return false;
        }
        due = due_after(due, piece);
        i = behind(piece, i + 1);
    }
    may_end(due)
}

// Whether the direct tokens of the body that a piece opens are what is due in it, where it opens one.
#[tactic(auto, unfolding(crate::specs::Ranges::inside_form))]
fn inside_formed(source: Source<'_>, from: usize, piece: Piece) -> bool
    requires { Inside (tokens source) from piece }
    ensures { result ≡ inside_form (tokens source.entry) from piece }
{
    let Piece::Opener { kind, end } = piece else {
        return true;
    };
    body_formed(source, from, end as usize, due_in(kind))
}

// Whether the root and every container is of the form.
pub(crate) fn all_formed(source: Source<'_>) -> bool
    requires { Whole source.words.now source.count }
    ensures { result ≡ formed (tokens source.entry) }
{
    if !body_formed(source, 0, source.count, Due::Key) {
        return false;
    }
    for i in 0..source.count {
        let piece = source.piece(i);
        if !inside_formed(source, i + 1, piece) {
            return false;
        }
    }
    true
}
