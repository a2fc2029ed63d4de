// Whether the tokens of a sheet stand as they should, looked at one by one from the first: each in its form, openers and
// Ends naming each other, each view in the text and past the one before it. The tokens stand in words or in bytes (see `packed::source`).
ghost use Rattle.std.specs.Prelude.{◌≡◌, true, ◌↔◌, ℕ, ◌≤◌, ◌<◌, length};
ghost use Rattle.packed.specs.Source.{words, tokens};
ghost use Rattle.tape.specs.Words.{words_for};
ghost use Rattle.tape.specs.Token.{may_be_empty, end_of, nth};
ghost use Rattle.tape.specs.Shape.{Opens, shape_of};
ghost use Rattle.sheet.specs.Steps.{Suited, Held, AllStand, floor_after};

use crate::source::link_at;
use packed::source::Source;
use tape::shape::{Link, Shape};
use tape::token::ScalarKind;
use tape::{shape, token};

// Whether the End of an opener at i stands after it and names it.
#[tactic(auto, using(crate::proofs::Links::closes_late, crate::proofs::Links::closes_end))]
fn closes(source: Source<'_>, i: usize, end: u32) -> bool
    ensures { (result ≡ true) ↔ ((i < end) × (nth (tokens source.entry) end ≡ end_of i)) }
{
    let at = end as usize;
    if at <= i {
        return false;
    }
    match link_at(source, at) {
        Some(Link::ToOpener(opener)) => (opener as usize) == i,
        Some(Link::ToEnd(_)) => false,
        None => false,
    }
}

// Whether the opener of an End at i stands before it and names it.
#[tactic(auto, using(crate::proofs::Links::opened_late, crate::proofs::Links::opened_opener))]
fn opened(source: Source<'_>, i: usize, opener: u32) -> bool
    ensures { (result ≡ true) ↔ ((opener < i) × Opens (nth (tokens source.entry) opener) i) }
{
    let at = opener as usize;
    if i <= at {
        return false;
    }
    match link_at(source, at) {
        Some(Link::ToEnd(end)) => (end as usize) == i,
        Some(Link::ToOpener(_)) => false,
        None => false,
    }
}

// Whether a container opens at a place.
#[tactic(auto, using(crate::proofs::Links::opens_opener, crate::proofs::Links::opens_end, crate::proofs::Links::opens_none))]
fn opens(source: Source<'_>, at: usize) -> bool
    ensures { (result ≡ true) ↔ ((end : ℕ) × Opens (nth (tokens source.entry) at) end) }
{
    matches!(link_at(source, at), Some(Link::ToEnd(_)))
}

// Whether a scalar of a kind may be as long as it is.
fn fills(kind: ScalarKind, length: u32) -> bool
    ensures { (result ≡ true) ↔ (length ≡ 0 → may_be_empty kind ≡ true) }
{
    length != 0 || token::may_be_empty(kind)
}

// Whether a scalar's view ends within the text, whether it may be as long as it is, and whether what follows suits it.
fn suits(
    text_length: usize,
    source: Source<'_>,
    next: usize,
    kind: ScalarKind,
    offset: u32,
    length: u32,
) -> bool
    ensures { (result ≡ true) ↔ Suited text_length (tokens source.entry) next kind offset length }
{
    if text_length < (offset as usize) + (length as usize) {
        return false;
    }
    if !fills(kind, length) {
        return false;
    }
    if token::is_header(kind) {
        return opens(source, next);
    }
    true
}

// Whether token i, of a shape, stands as it should by itself.
fn token_stands(text_length: usize, source: Source<'_>, i: usize, shape: Option<Shape>) -> bool
    requires { (words_for source.count ≤ length (words source)) × (i < source.count) × (shape ≡ shape_of (nth (tokens source) i)) }
    ensures { (result ≡ true) ↔ Held text_length (tokens source.entry) i }
{
    match shape {
        Some(Shape::Opener { end }) => i != 0 && closes(source, i, end),
        Some(
            Shape::Scalar {
                kind,
                offset,
                length,
            },
        ) => suits(text_length, source, i + 1, kind, offset, length),
        Some(Shape::End { opener }) => opened(source, i, opener),
        Some(Shape::MixedContainer) => true,
        Some(Shape::Operator { .. }) => true,
        None => false,
    }
}

// The least start that the scalars after a token of a shape may have: past its start, and past its end. None where it came too early.
#[tactic(auto, unfolding(crate::specs::Steps::floor_after))]
fn raised(shape: Option<Shape>, floor: usize) -> Option<usize>
    ensures { result ≡ floor_after shape floor }
{
    let Some(Shape::Scalar { offset, length, .. }) = shape else {
        return Some(floor);
    };
    let start = offset as usize;
    if start < floor {
        return None;
    }
    Some(start + (length as usize).max(1))
}

// Whether every token stands as it should, but for how containers nest.
pub(crate) fn all_stand(text_length: usize, source: Source<'_>) -> bool
    requires { words_for source.count ≤ length (words source) }
    ensures { (result ≡ true) ↔ AllStand text_length (tokens source.entry) }
{
    let mut floor: usize = 0;
    for i in 0..source.count {
        let shape = shape::shape_of(source.token(i));
        if !token_stands(text_length, source, i, shape) {
            return false;
        }
        let Some(next) = raised(shape, floor) else {
            return false;
        };
        floor = next;
    }
    true
}
