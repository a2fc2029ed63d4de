// How long a sheet's text will be, from one pass over its tokens and without writing it.
ghost use Rattle.std.specs.Prelude.{◌≡◌, false, true, ◌+◌, ◌≤◌, length};
ghost use Rattle.tape.specs.Words.{greatest_word};
ghost use Rattle.writer.specs.declared.dues.Due.TheVariants.{Entry};
ghost use Rattle.put.specs.Parts.{view_of};
ghost use Rattle.writer.specs.Pieces.{quote_if, sign_bytes};
ghost use Rattle.writer.specs.Text.{lead, piece_text};
ghost use Rattle.writer.specs.Scans.{token_size, first_behind, measured};
ghost use Rattle.writer.specs.Write.{text_of};
ghost use Rattle.writer.specs.Ranges.{Whole};
ghost use Rattle.writer.specs.Source.{tokens};

use crate::pieces::{Piece, piece_of, still_first};
use crate::source::Source;
use parse::TEXT_LIMIT;
use tape::shape;
use tape::shape::Link;
use tape::token::Token;

// How many bytes stand before a token: one, whichever it is, unless the token is the first of its body.
fn lead_size(first: bool) -> usize
    ensures { result ≡ length (lead first Entry false) }
{
    if first { 0 } else { 1 }
}

// How many bytes an operator's sign has.
fn sign_size(number: u32) -> usize
    ensures exact { result ≡ length (sign_bytes number) }
    ensures small { result ≤ 2 }
{
    match operator::operator_numbered(number) {
        Some(operator) => operator.spelling().len(),
        None => 0,
    }
}

// How many bytes a scalar has, and two more for its quotes.
fn scalar_size(text: &[u8], quoted: bool, offset: u32, size: u32) -> usize
    ensures exact { result ≡ length (quote_if quoted (view_of text.now offset size)) }
    ensures small { result ≤ greatest_word + 2 }
{
    let bytes = put::part(text, offset as usize, size as usize).len();
    if quoted {
        return bytes + 2;
    }
    bytes
}

// How many bytes are written for a token that opens nothing and closes nothing.
#[tactic(auto, using(crate::proofs::Sizes::lead_short, crate::proofs::Sizes::lead_same), unfolding(crate::specs::Text::piece_text, crate::specs::Pieces::own_bytes))]
fn piece_size(text: &[u8], first: bool, piece: Piece) -> usize
    ensures exact { result ≡ length (piece_text text.now first Entry piece) }
    ensures small { result ≤ greatest_word + 3 }
{
    match piece {
        Piece::Scalar {
            quoted,
            offset,
            length,
        } => lead_size(first) + scalar_size(text, quoted, offset, length),
        Piece::Heading { offset, length } => {
            lead_size(first) + scalar_size(text, false, offset, length)
        }
        Piece::Sign { number } => lead_size(first) + sign_size(number),
        Piece::Mixed | Piece::Opener { .. } | Piece::Other => 0,
    }
}

// How many bytes are written for a token: for an opener its brace, for an End the other.
#[tactic(auto, using(crate::proofs::Sizes::lead_short), unfolding(crate::specs::Scans::token_size))]
fn token_size(text: &[u8], first: bool, x: Token, link: Option<Link>) -> usize
    ensures exact { result ≡ token_size text.now first x link }
    ensures small { result ≤ greatest_word + 3 }
{
    match link {
        Some(Link::ToEnd(_)) => lead_size(first) + 1,
        Some(Link::ToOpener(_)) => 1,
        None => piece_size(text, first, piece_of(x)),
    }
}

// Whether the token behind one is the first of its body.
#[tactic(auto, unfolding(crate::specs::Scans::first_behind))]
fn first_behind(first: bool, x: Token, link: Option<Link>) -> bool
    ensures { result ≡ first_behind first x link }
{
    match link {
        Some(Link::ToEnd(_)) => true,
        Some(Link::ToOpener(_)) => false,
        None => still_first(first, piece_of(x)),
    }
}

// How long a sheet's text will be, unless that is over the limit.
pub(crate) fn measure(source: Source<'_>) -> Option<usize>
    requires { Whole source.words.now source.count }
    ensures { result ≡ measured (length (text_of source.entry.text.now (tokens source.entry))) }
{
    let mut first = true;
    let mut total = 0;
    for i in 0..source.count {
        let x = source.token(i);
        let link = shape::link_of(x);
        let size = token_size(source.text, first, x, link);
        if TEXT_LIMIT - total < size {
            return None;
        }
        total += size;
        first = first_behind(first, x, link);
    }
    Some(total)
}
