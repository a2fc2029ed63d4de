// The link of a token of a sheet that stands in words or in bytes (see `packed::source`).
ghost use Rattle.std.specs.Prelude.{◌≡◌};
ghost use Rattle.packed.specs.Source.{tokens};
ghost use Rattle.tape.specs.Token.{nth};
ghost use Rattle.tape.specs.Shape.{link_of};

use packed::source::Source;
use tape::shape;
use tape::shape::Link;

// The link of the token at a place, none where there is no token or it has none.
#[tactic(auto, unfolding(tape::specs::Words::token_in))]
pub(crate) fn link_at(source: Source<'_>, i: usize) -> Option<Link>
    ensures { result ≡ link_of (nth (tokens source.entry) i) }
{
    shape::link_of(source.token(i))
}
