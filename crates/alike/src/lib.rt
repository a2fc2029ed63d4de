// Whether a text, parsed, gives the tokens of a sheet: the same codes, words and scalar bytes, offsets aside.
#![tactic(auto)]

ghost use Rattle.std.specs.Prelude.{◌≡◌, length, replicate};
ghost use Rattle.tape.specs.Words.{tokens_in};
ghost use Rattle.machine.specs.Finish.{outcome};
ghost use Rattle.parse.specs.Parse.{parse_of};
ghost use Rattle.alike.specs.Alike.{same_view, same_words, same_token, found_alike, comes_back};

use machine::{Parsed, Refusal};
use put::equal::equal_bytes;
use put::part;
use tape::token::Token;
use tape::{token, words};

// Whether two scalars view the same bytes, each in its own text.
#[tactic(auto, unfolding(crate::specs::Alike::same_view))]
fn same_view(text: &[u8], other: &[u8], x: Token, y: Token) -> bool
    ensures { result ≡ same_view text.now other.now x y }
{
    x.b == y.b
        && equal_bytes(
            part(text, x.a as usize, x.b as usize),
            part(other, y.a as usize, y.b as usize),
        )
}

// Whether two tokens that are no scalars have the same words.
#[tactic(auto, unfolding(crate::specs::Alike::same_words))]
fn same_words(x: Token, y: Token) -> bool
    ensures { result ≡ same_words x y }
{
    x.a == y.a && x.b == y.b
}

// Whether two tokens are the same, each over its own text.
#[tactic(auto, unfolding(crate::specs::Alike::same_token))]
fn same_token(text: &[u8], other: &[u8], x: Token, y: Token) -> bool
    ensures { result ≡ same_token text.now other.now x y }
{
    if x.code != y.code {
        return false;
    }
    match token::scalar_named(x.code) {
        Some(_) => same_view(text, other, x, y),
        None => same_words(x, y),
    }
}

// Whether so many tokens that were found on a tape are a sheet's, each over its own text.
fn found_alike(
    text: &[u8],
    other: &[u8],
    words: &[u32],
    count: usize,
    tape: &[u32],
    found: usize,
) -> bool
    ensures { result ≡ found_alike text.now other.now (tokens_in words.now count) found tape.now }
{
    if found != words::held(words, count) {
        return false;
    }
    if !words::holds(tape, found) {
        return false;
    }
    for i in 0..found {
        let x = words::token_of(words, count, i);
        if !same_token(text, other, x, words::token_of(tape, found, i)) {
            return false;
        }
    }
    true
}

// Whether what a parse of another text answered, and left on its tape, are a sheet's tokens.
fn parsed_alike(
    text: &[u8],
    other: &[u8],
    words: &[u32],
    count: usize,
    tape: &[u32],
    parsed: Result<Parsed, Refusal>,
) -> bool
    ensures { result ≡ comes_back text.now other.now (tokens_in words.now count)
        (outcome parsed tape.now) }
{
    match parsed {
        Ok(parsed) => found_alike(text, other, words, count, tape, parsed.count as usize),
        Err(_) => false,
    }
}

// Whether another text, parsed, gives a sheet's tokens. The scratch is the parse's tape, and is zero afterwards.
#[tactic(auto, using(crate::proofs::Same::all_cleared))]
pub fn comes_back(
    text: &[u8],
    words: &[u32],
    count: usize,
    other: &[u8],
    scratch: &mut [u32],
) -> bool
    ensures told { result ≡ comes_back text.now other.now (tokens_in words.now count)
        (parse_of other.now (length scratch.old)) }
    ensures clear { scratch.new ≡ replicate (length scratch.old) 0 }
{
    let parsed = parse::parse(other, scratch);
    let same = parsed_alike(text, other, words, count, scratch, parsed);
    words::clear_from(scratch, 0);
    same
}
