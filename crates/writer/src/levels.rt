// How deep a sheet nests, from one pass over its tokens.
ghost use Rattle.std.specs.Prelude.{◌≡◌, ◌≤◌};
ghost use Rattle.writer.specs.Write.{too_deep};
ghost use Rattle.writer.specs.Levels.{most_levels};
ghost use Rattle.writer.specs.Scans.{sunk};
ghost use Rattle.writer.specs.Ranges.{Whole};
ghost use Rattle.writer.specs.Source.{tokens};

use crate::source::Source;
use tape::shape;
use tape::shape::Link;

// Bodies nest to so many levels, the root not counted.
const MOST_LEVELS: usize = 64;

// The levels behind a token, unless they are more than may be: an opener goes one down, an End one up.
#[tactic(auto, unfolding(crate::specs::Scans::sunk))]
fn sink(level: usize, link: Option<Link>) -> Option<usize>
    requires { level ≤ most_levels }
    ensures { result ≡ sunk level link }
{
    match link {
        Some(Link::ToEnd(_)) => (level < MOST_LEVELS).then_some(level + 1),
        Some(Link::ToOpener(_)) => Some(level.saturating_sub(1)),
        None => Some(level),
    }
}

// Whether a sheet nests deeper.
pub(crate) fn sinks_too_deep(source: Source<'_>) -> bool
    requires { Whole source.words.now source.count }
    ensures { result ≡ too_deep (tokens source.entry) }
{
    let mut level = 0;
    for i in 0..source.count {
        let link = shape::link_of(source.token(i));
        let Some(next) = sink(level, link) else {
            return true;
        };
        level = next;
    }
    false
}
