// The text of a body: the routine for pairs and the routine for entries call each other, for what stands in a container and for what
// follows a MixedContainer. The tokens that are left grow fewer at each call.
ghost use Rattle.std.specs.Prelude.{◌≡◌, true, ◌+◌, length};
ghost use Rattle.put.specs.Append.{wrote, append};
ghost use Rattle.writer.specs.declared.dues.Due.TheVariants as due;
ghost use Rattle.writer.specs.Forest.{stretch};
ghost use Rattle.put.specs.Parts.{view_of};
ghost use Rattle.writer.specs.Pieces.{is_mixed, is_opener, quote_if, sign_bytes};
ghost use Rattle.writer.specs.Text.{lead, piece_text, body_text};
ghost use Rattle.writer.specs.Ranges.{Range, Inside, inside_text};
ghost use Rattle.writer.specs.Source.{tokens};

use crate::dues::{Due, due_after};
use crate::pieces::{Piece, still_first};
use crate::ranges::behind;
use crate::source::Source;
use put::{part, put_byte, put_bytes};
use tape::token::ContainerKind;

// Puts what stands before a token: nothing before the first of its body, `=` between a key and its entry where no operator stands, and
// else a space.
#[tactic(auto, using(crate::proofs::Puts::put_none))]
fn put_lead(out: &mut [u8], at: usize, first: bool, due: Due, sign: bool) -> usize
    ensures { wrote result out.new ≡ append out.old at (lead first due sign) }
{
    if first {
        return at;
    }
    if due == Due::AfterKey && !sign {
        return put_byte(out, at, b'=');
    }
    put_byte(out, at, b' ')
}

// Puts the sign of the operator that a number stands for.
fn put_sign(out: &mut [u8], at: usize, number: u32) -> usize
    ensures { wrote result out.new ≡ append out.old at (sign_bytes number) }
{
    match operator::operator_numbered(number) {
        Some(operator) => put_bytes(out, at, operator.spelling()),
        None => at,
    }
}

// Puts a part of the text, in quotes or as it is.
fn put_scalar(out: &mut [u8], at: usize, text: &[u8], quoted: bool, offset: u32, size: u32) -> usize
    ensures { wrote result out.new ≡ append out.old at (quote_if quoted (view_of text.now offset size)) }
{
    let bytes = part(text, offset as usize, size as usize);
    if quoted {
        let open = put_byte(out, at, b'"');
        let close = put_bytes(out, open, bytes);
        return put_byte(out, close, b'"');
    }
    put_bytes(out, at, bytes)
}

// Puts a token that opens nothing, with what stands before it.
#[tactic(auto, using(crate::proofs::Puts::put_none), unfolding(crate::specs::Text::piece_text))]
fn put_piece(out: &mut [u8], at: usize, text: &[u8], first: bool, due: Due, piece: Piece) -> usize
    ensures { wrote result out.new ≡ append out.old at (piece_text text.now first due piece) }
{
    match piece {
        Piece::Scalar {
            quoted,
            offset,
            length,
        } => {
            let next = put_lead(out, at, first, due, false);
            put_scalar(out, next, text, quoted, offset, length)
        }
        Piece::Heading { offset, length } => {
            let next = put_lead(out, at, first, due, false);
            put_scalar(out, next, text, false, offset, length)
        }
        Piece::Sign { number } => {
            let next = put_lead(out, at, first, due, true);
            put_sign(out, next, number)
        }
        Piece::Mixed | Piece::Opener { .. } | Piece::Other => at,
    }
}

// Whether a piece is a MixedContainer.
fn is_mixed(piece: Piece) -> bool
    ensures { result ≡ is_mixed piece }
{
    matches!(piece, Piece::Mixed)
}

// Whether a piece opens a container.
fn opens(piece: Piece) -> bool
    ensures { result ≡ is_opener piece }
{
    matches!(piece, Piece::Opener { .. })
}

// Puts a container that a piece opens, with what stands before it and all that stands in it.
#[cycle(put_entries_put_inside_put_pairs)]
fn put_inside(
    out: &mut [u8],
    at: usize,
    source: &Source<'_>,
    from: usize,
    first: bool,
    due: Due,
    piece: Piece,
) -> usize
    requires { Inside (tokens source.now) from piece }
    ensures { wrote result out.new ≡ append out.old at
        (inside_text source.now.text.now (tokens source.now) from first due piece) }
{
    let Piece::Opener { kind, end } = piece else {
        return at;
    };
    let before = put_lead(out, at, first, due, false);
    let open = put_byte(out, before, b'{');
    match kind {
        ContainerKind::Array => {
            let close = put_entries(out, open, source, from, end as usize, true);
            put_byte(out, close, b'}')
        }
        ContainerKind::Object => {
            let close = put_pairs(out, open, source, from, end as usize);
            put_byte(out, close, b'}')
        }
    }
}

// Puts the tokens of a range as entries, the first of them with nothing before it where it is the first of its body.
#[cycle(put_entries_put_inside_put_pairs)]
fn put_entries(
    out: &mut [u8],
    at: usize,
    source: &Source<'_>,
    from: usize,
    end: usize,
    alone: bool,
) -> usize
    requires { Range (tokens source.now) from end }
    ensures { wrote result out.new ≡ append out.old at
        (body_text (stretch (tokens source.now) from end) source.now.text.now alone due.Entry) }
{
    // Counted by hand: the walk goes on behind the End of what opened, which no range gives.
    let mut i = from;
    let mut next = at;
    let mut first = alone;
    while i < end {
        let piece = source.piece(i);
        if opens(piece) {
            next = put_inside(out, next, source, i + 1, first, Due::Entry, piece);
        } else {
            next = put_piece(out, next, source.text, first, Due::Entry, piece);
        }
        first = still_first(first, piece);
        i = behind(piece, i + 1);
    }
    next
}

// Puts the tokens of a range as pairs, up to a MixedContainer, and what follows that as entries.
#[cycle(put_entries_put_inside_put_pairs)]
pub(crate) fn put_pairs(
    out: &mut [u8],
    at: usize,
    source: &Source<'_>,
    from: usize,
    end: usize,
) -> usize
    requires { Range (tokens source.now) from end }
    ensures { wrote result out.new ≡ append out.old at
        (body_text (stretch (tokens source.now) from end) source.now.text.now true due.Key) }
{
    // Counted by hand: the walk goes on behind the End of what opened, which no range gives.
    let mut i = from;
    let mut next = at;
    let mut first = true;
    let mut due = Due::Key;
    while i < end {
        let piece = source.piece(i);
        if is_mixed(piece) {
            return put_entries(out, next, source, i + 1, end, first);
        }
        if opens(piece) {
            next = put_inside(out, next, source, i + 1, first, due, piece);
        } else {
            next = put_piece(out, next, source.text, first, due, piece);
        }
        first = still_first(first, piece);
        due = due_after(due, piece);
        i = behind(piece, i + 1);
    }
    next
}
