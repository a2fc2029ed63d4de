// The lines of a dump: a header, and a line for each token with its index, its name and its two words.
ghost use Rattle.std.specs.Prelude.{◌≡◌, length};
ghost use Rattle.tape.specs.Token.{scalar_code};
ghost use Rattle.tape.specs.Words.{tokens_in};
ghost use Rattle.put.specs.Append.{wrote, append};
ghost use Rattle.parse.specs.Told.{bit};
ghost use Rattle.report.specs.Dump.{name_of, field, line_of, lines_from, header_of, refused_of};

use crate::numbers::put_decimal;
use crate::refusals::put_refusal;
use put::{put_byte, put_bytes};
use tape::token::{ScalarKind, Token};
use tape::{codes, token, words};

// Puts the name of the scalars of a kind.
#[tactic(auto, unfolding(crate::specs::Dump::name_of, crate::specs::Dump::named))]
fn put_scalar_name(out: &mut [u8], at: usize, kind: ScalarKind) -> usize
    ensures { wrote result out.new ≡ append out.old at (name_of (scalar_code kind)) }
{
    match kind {
        ScalarKind::Unquoted => put_bytes(out, at, b"Unquoted"),
        ScalarKind::Quoted => put_bytes(out, at, b"Quoted"),
        ScalarKind::Parameter => put_bytes(out, at, b"Parameter"),
        ScalarKind::UndefinedParameter => put_bytes(out, at, b"UndefinedParameter"),
        ScalarKind::Header => put_bytes(out, at, b"Header"),
        ScalarKind::QuotedEscape => put_bytes(out, at, b"QuotedEscape"),
    }
}

// Puts the name of the tokens that have a code, nothing for a code that none has. A match on the code was tried: its last arm's goal, that no name
// is put, didn't close, since what the arms before it told of the code has no name there.
pub fn put_name(out: &mut [u8], at: usize, code: u32) -> usize
    ensures { wrote result out.new ≡ append out.old at (name_of code) }
{
    if code == codes::ARRAY {
        return put_bytes(out, at, b"Array");
    }
    if code == codes::OBJECT {
        return put_bytes(out, at, b"Object");
    }
    if code == codes::MIXED_CONTAINER {
        return put_bytes(out, at, b"MixedContainer");
    }
    if code == codes::OPERATOR {
        return put_bytes(out, at, b"Operator");
    }
    if code == codes::END {
        return put_bytes(out, at, b"End");
    }
    match token::scalar_named(code) {
        Some(kind) => put_scalar_name(out, at, kind),
        None => at,
    }
}

// Puts a space and a number.
pub fn put_field(out: &mut [u8], at: usize, n: u64) -> usize
    ensures { wrote result out.new ≡ append out.old at (field n) }
{
    let next = put_byte(out, at, b' ');
    put_decimal(out, next, n)
}

// Puts the line of token i.
pub fn put_token(out: &mut [u8], at: usize, i: u32, t: Token) -> usize
    ensures { wrote result out.new ≡ append out.old at (line_of i t) }
{
    let index = put_decimal(out, at, i as u64);
    let gap = put_byte(out, index, b' ');
    let name = put_name(out, gap, t.code);
    let a = put_field(out, name, t.a as u64);
    let b = put_field(out, a, t.b as u64);
    put_byte(out, b, b'\n')
}

// How many of count tokens stand on a tape whole, by numbers of a word's width.
fn standing(tape: &[u32], count: u32) -> u32
    ensures { result ≡ length (tokens_in tape.now count) }
{
    words::held(tape, count as usize) as u32
}

// Puts the lines of the first count tokens of a tape, or of as many as stand there.
pub fn put_tokens(out: &mut [u8], at: usize, tape: &[u32], count: u32) -> usize
    ensures { wrote result out.new ≡ append out.old at (lines_from 0 (tokens_in tape.now count)) }
{
    let all = standing(tape, count);
    let mut next = at;
    for i in 0..all {
        next = put_token(out, next, i, words::token(tape, count, i));
    }
    next
}

// Puts the header of a dump.
pub fn put_header(out: &mut [u8], at: usize, count: u32, bom: bool) -> usize
    ensures { wrote result out.new ≡ append out.old at (header_of count (bit bom)) }
{
    let tokens = put_bytes(out, at, b"tokens ");
    let counted = put_decimal(out, tokens, count as u64);
    let mark = put_bytes(out, counted, b" bom ");
    let told = put_decimal(out, mark, u64::from(bom));
    put_byte(out, told, b'\n')
}

// Puts the line of a refusal: its number and its place.
pub fn put_refused(out: &mut [u8], at: usize, number: u64, place: u64) -> usize
    ensures { wrote result out.new ≡ append out.old at (refused_of number place) }
{
    let first = put_refusal(out, at, number);
    let second = put_field(out, first, place);
    put_byte(out, second, b'\n')
}
