// Tokens on a lent slice of words: read one, lay one down after the others, change one, clear what stands past them.
// `count` says how many tokens stand on the tape, and an index that is not below it reads and changes nothing.
ghost use Rattle.std.specs.Prelude.{◌≡◌, length, get_or, set, leb};
ghost use Rattle.tape.specs.Words.{words_for, a_word, capacity, tokens_in, token_in};
ghost use Rattle.tape.specs.Words.{put_words, put_in, written, push_words, insert_words, cleared};
ghost use Rattle.tape.specs.Tape.{view, replace, lay, lay_mixed, after_push};

use crate::token;
use crate::token::Token;

// How many words a token has. Whoever lends words counts in this or asks `words_for` and `capacity`.
pub const WORDS_PER_TOKEN: usize = 3;
// A token's words after its first, which is its code.
const A_WORD: usize = 1;

const B_WORD: usize = 2;

const LAST_WORD: usize = WORDS_PER_TOKEN - 1;

// How many words some tokens take.
pub fn words_for(count: u32) -> usize
    ensures { result ≡ words_for count }
{
    (count as usize) * WORDS_PER_TOKEN
}

// How many tokens some words have room for.
pub fn capacity(words: &[u32]) -> usize
    ensures { result ≡ capacity (length words.now) }
{
    words.len() / WORDS_PER_TOKEN
}

// Token i of count, or the token of zeros where there is none.
pub fn token_of(words: &[u32], count: usize, i: usize) -> Token
    ensures { result ≡ token_in words.now count i }
{
    if i < count && i < words.len() / WORDS_PER_TOKEN {
        let at = i * WORDS_PER_TOKEN;
        return Token {
            code: words[at],
            a: words[at + A_WORD],
            b: words[at + B_WORD],
        };
    }
    token::NO_TOKEN
}

// The same by numbers of a word's width, as the states keep them.
pub fn token(tape: &[u32], count: u32, i: u32) -> Token
    ensures { result ≡ token_in tape.now count i }
{
    token_of(tape, count as usize, i as usize)
}

// Whether the words of count tokens are all there.
pub fn holds(words: &[u32], count: usize) -> bool
    ensures { result ≡ leb (words_for count) (length words.now) }
{
    count <= words.len() / WORDS_PER_TOKEN
}

// How many of count tokens stand in some words whole.
pub fn held(words: &[u32], count: usize) -> usize
    ensures { result ≡ length (tokens_in words.now count) }
{
    count.min(capacity(words))
}

// Writes the words of token i, where they fit.
pub fn put_words(tape: &mut [u32], i: u32, t: Token)
    ensures { tape.new ≡ put_words tape.old i t }
{
    let at = (i as usize) * WORDS_PER_TOKEN;
    if at + LAST_WORD < tape.len() {
        tape[at] = t.code;
        tape[at + A_WORD] = t.a;
        tape[at + B_WORD] = t.b;
    }
}

// Changes token i of count.
pub fn put(tape: &mut [u32], count: u32, i: u32, t: Token)
    ensures exact { tape.new ≡ put_in tape.old count i t }
    ensures seen { view tape.new count ≡ replace (view tape.old count) i t }
{
    if i < count {
        put_words(tape, i, t);
    }
}

// Gives token i another link, which is its first word behind the code, and answers the one that it had; 0 where there is no such word.
pub fn relink(tape: &mut [u32], i: u32, link: u32) -> u32
    ensures had { result ≡ get_or tape.old (a_word i) 0 }
    ensures has { tape.new ≡ set tape.old (a_word i) «link» }
{
    let at = (i as usize) * WORDS_PER_TOKEN + A_WORD;
    if at < tape.len() {
        let had = tape[at];
        tape[at] = link;
        return had;
    }
    0
}

// Lays a token down after count others, and answers the new count; none where no word can number one more or its words are not there, and
// then nothing is changed. Each test leaves at once, by which the parser's loop is faster than by both as one.
pub fn push(tape: &mut [u32], count: u32, t: Token) -> Option<u32>
    ensures exact { written result tape.new ≡ push_words tape.old count t }
    ensures seen { after_push result tape.new ≡ lay (view tape.old count) count t }
{
    if count == u32::MAX {
        return None;
    }
    let at = (count as usize) * WORDS_PER_TOKEN;
    if tape.len() <= at + LAST_WORD {
        return None;
    }
    put_words(tape, count, t);
    Some(count + 1)
}

// Lays a MixedContainer down before the last of count tokens, which moves up by one.
pub fn insert_mixed(tape: &mut [u32], count: u32) -> Option<u32>
    ensures exact { written result tape.new ≡ insert_words tape.old count }
    ensures seen { after_push result tape.new ≡ lay_mixed (view tape.old count) count }
{
    if count == 0 {
        return push(tape, 0, token::mixed_container());
    }
    let last = token(tape, count, count - 1);
    let laid = push(tape, count, last)?;
    put_words(tape, count - 1, token::mixed_container());
    Some(laid)
}

// Zeroes every word past count tokens.
pub fn clear_from(tape: &mut [u32], count: u32)
    ensures { tape.new ≡ cleared tape.old count }
{
    let laid = (count as usize).min(capacity(tape));
    let from = laid * WORDS_PER_TOKEN;
    tape[from..].fill(0);
}
