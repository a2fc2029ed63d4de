// Whether containers lie in each other, found while the tokens are laid down on words, from the first to the last.
// The containers that are open hang in a chain, the innermost first: while one is open, its link on the words is its parent's
// index, 0 where there is none, since token 0 opens nothing. An End must be that of the innermost, which then gets its link back.
ghost use Rattle.std.specs.Prelude.{◌≡◌, true, ◌↔◌, ℕ, ◌≤◌, ◌<◌, length};
ghost use Rattle.packed.specs.Packed.{words_packed};
ghost use Rattle.tape.specs.Token.{end_of};
ghost use Rattle.tape.specs.Shape.{Opens};
ghost use Rattle.tape.specs.Words.{words_for, greatest_word, tokens_in};
ghost use Rattle.sheet.specs.Sound.{Form, Nested};
ghost use Rattle.sheet.specs.Steps.{Layable};

use packed::tokens;
use tape::token::Token;
use tape::{codes, words};

// Whether a token in its form opens a container: its code tells.
fn opens(t: Token) -> bool
    requires { Form t }
    ensures { (result ≡ true) ↔ Opens t t.a }
{
    t.code == codes::ARRAY || t.code == codes::OBJECT
}

// Whether a token in its form is an End.
fn ends(t: Token) -> bool
    requires { Form t }
    ensures { (result ≡ true) ↔ (t ≡ end_of t.a) }
{
    t.code == codes::END
}

// Whether every container that opens in another ends in it; where so, the tokens are then laid down.
pub(crate) fn nest_onto(bytes: &[u8], words: &mut [u32], count: usize) -> bool
    requires { Layable (tokens_in (words_packed bytes.now) count) × (length (tokens_in (words_packed bytes.now) count) ≡ count)
        × (words_for count ≤ length words.old) × (count ≤ greatest_word) }
    ensures nests { (result ≡ true) ↔ ((i : ℕ) → Nested (tokens_in (words_packed bytes.now) count) i) }
    ensures laid { result ≡ true → tokens_in words.new count ≡ tokens_in (words_packed bytes.now) count }
    ensures size { length words.new ≡ length words.old }
{
    let mut inner: u32 = 0;
    for i in 0..count {
        let n = i as u32;
        let t = tokens::token_of(bytes, count, i);
        words::put_words(words, n, t);
        if opens(t) {
            words::relink(words, n, inner);
            inner = n;
        } else if ends(t) {
            if t.a != inner {
                return false;
            }
            inner = words::relink(words, inner, n);
        }
    }
    true
}
