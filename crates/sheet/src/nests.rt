// Whether containers lie in each other, on a sheet whose openers and Ends name each other.
// The containers are taken from the last to the first. Each is walked from its opener to its End over the tokens that
// stand in it directly: from an opener the walk goes on past that one's End, where it may come out too far, and an End that
// it meets is another container's. No token is walked twice, on no sheet: when a container is walked, those after it
// are known to nest, so the walk goes over each of them whole, and a token that it stands on lies in none of them.
ghost use Rattle.std.specs.Prelude.{◌≡◌, true, ◌↔◌, ℕ};
ghost use Rattle.packed.specs.Source.{tokens};
ghost use Rattle.sheet.specs.Sound.{Nested};
ghost use Rattle.sheet.specs.Steps.{Linked, Walkable, Walked};

use crate::source::link_at;
use packed::source::Source;
use tape::shape::Link;

// Whether the walk from the opener at i comes out at its End.
fn walk(source: Source<'_>, i: usize, end: usize) -> bool
    requires { Walkable (tokens source) i end }
    ensures { Walked (tokens source.entry) i result }
{
    let mut at = i + 1;
    while at < end {
        match link_at(source, at) {
            Some(Link::ToEnd(inner)) => at = (inner as usize) + 1,
            Some(Link::ToOpener(_)) => return false,
            None => at += 1,
        }
    }
    at == end
}

// Whether every container that opens in another ends in it.
pub(crate) fn nest(source: Source<'_>) -> bool
    requires { Linked (tokens source) }
    ensures { (result ≡ true) ↔ ((i : ℕ) → Nested (tokens source.entry) i) }
{
    for i in (0..source.count).rev() {
        match link_at(source, i) {
            Some(Link::ToEnd(end)) => {
                if !walk(source, i, end as usize) {
                    return false;
                }
            }
            Some(Link::ToOpener(_)) => {}
            None => {}
        }
    }
    true
}
