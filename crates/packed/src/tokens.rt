// Tokens as bytes: the code in one byte, and each word behind it in four.
ghost use Rattle.std.specs.Prelude.{◌≡◌, ◌+◌, ◌≤◌, length};
ghost use Rattle.std.proofs.lemmas.List.Edits.{sets};
ghost use Rattle.tape.specs.Words.{tokens_in, token_in};
ghost use Rattle.packed.specs.Numbers.{store};
ghost use Rattle.packed.specs.Packed.{bytes_per_token, bytes_for, token_bytes, packed, token_spelled, words_packed};

use crate::numbers;
use crate::numbers::{WORD_BYTES, Width};
use tape::token::Token;
use tape::{token, words};

// The bytes of a token's code, before its words.
const CODE_BYTES: usize = 1;

// How many bytes a token takes.
pub const BYTES_PER_TOKEN: usize = CODE_BYTES + WORD_BYTES + WORD_BYTES;
// Where the words of a token stand behind its code.
const A_AT: usize = CODE_BYTES;

const B_AT: usize = CODE_BYTES + WORD_BYTES;

// How many bytes some tokens take.
pub fn bytes_for(count: u32) -> usize
    ensures { result ≡ bytes_for count }
{
    (count as usize) * BYTES_PER_TOKEN
}

// The token that stands at a place.
fn token_at(bytes: &[u8], at: usize) -> Token
    requires { at + bytes_per_token ≤ length bytes.now }
    ensures { result ≡ token_spelled bytes.now at }
{
    Token {
        code: numbers::spelt_at(bytes, at, Width::One),
        a: numbers::spelt_at(bytes, at + A_AT, Width::Four),
        b: numbers::spelt_at(bytes, at + B_AT, Width::Four),
    }
}

// Token i of count that stand in some bytes, or the token of zeros where there is none.
#[tactic(auto, using(crate::proofs::Packing::packed_there, crate::proofs::Packing::packed_none, crate::proofs::Packing::packed_past))]
pub fn token_of(bytes: &[u8], count: usize, i: usize) -> Token
    ensures { result ≡ token_in (words_packed bytes.now) count i }
{
    if i < count && i < bytes.len() / BYTES_PER_TOKEN {
        return token_at(bytes, i * BYTES_PER_TOKEN);
    }
    token::NO_TOKEN
}

// Puts a token at a place.
fn put_token(out: &mut [u8], at: usize, t: Token)
    requires { at + bytes_per_token ≤ length out.old }
    ensures { out.new ≡ sets out.old at (token_bytes t) }
{
    numbers::spell_at(out, at, Width::One, t.code);
    numbers::spell_at(out, at + A_AT, Width::Four, t.a);
    numbers::spell_at(out, at + B_AT, Width::Four, t.b);
}

// Puts the n tokens of a sheet from a place on.
fn put_all(words: &[u32], count: usize, n: usize, out: &mut [u8], at: usize)
    requires { (n ≡ length (tokens_in words.now count)) × (at + bytes_for n ≤ length out.old) }
    ensures { out.new ≡ sets out.old at (packed (tokens_in words.now count)) }
{
    for i in 0..n {
        put_token(
            out,
            at + i * BYTES_PER_TOKEN,
            words::token_of(words, count, i),
        );
    }
}

// Puts the tokens of a sheet from a place on, where they all find room.
#[tactic(auto, using(crate::proofs::Packing::pack_none, crate::proofs::Packing::pack_there))]
pub fn pack(words: &[u32], count: usize, out: &mut [u8], at: usize)
    ensures { out.new ≡ store out.old at (packed (tokens_in words.now count)) }
{
    let n = words::held(words, count);
    if at <= out.len() && n <= (out.len() - at) / BYTES_PER_TOKEN {
        put_all(words, count, n, out, at);
    }
}
