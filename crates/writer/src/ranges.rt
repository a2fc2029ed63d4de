// Where a walk over a body's direct tokens goes on.
ghost use Rattle.std.specs.Prelude.{◌≡◌};
ghost use Rattle.writer.specs.Ranges.{behind};

use crate::pieces::Piece;

// Behind the End of what a piece opens, or at the next token.
#[tactic(auto, unfolding(crate::specs::Ranges::behind))]
pub(crate) fn behind(piece: Piece, next: usize) -> usize
    ensures { result ≡ behind piece next }
{
    match piece {
        Piece::Opener { end, .. } => (end as usize) + 1,
        _ => next,
    }
}
