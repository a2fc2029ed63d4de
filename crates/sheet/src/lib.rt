// Sheets that come from elsewhere: whether one is sound, and the views of its tokens.
#![tactic(auto)]

ghost use Rattle.std.specs.Prelude.{◌≡◌, true, ◌↔◌, ◌≤◌, leb, length};
ghost use Rattle.packed.specs.Packed.{words_packed};
ghost use Rattle.packed.specs.Source.{words};
ghost use Rattle.tape.specs.Words.{room_of, tokens_in};
ghost use Rattle.sheet.specs.Onto.{laid_onto};
ghost use Rattle.sheet.specs.Sound.{Sound};

use packed::source::Source;
use tape::words;

// Each token by itself and the views in order.
mod stands;
// The link of a token.
mod source;
// The containers in each other.
mod nests;
// The same while the tokens are laid down.
mod lays;
// One token by its index.
pub mod views;

// Whether the first count tokens of a sheet, in words or in bytes, are sound for a text of a length.
// The tokens are looked at once from the first on, and then walked from the last on, at most once each (see `nests`): the
// time goes by the count, for sound sheets and for others.
#[tactic(auto, using(crate::proofs::Whole::standing_linked, crate::proofs::Whole::check_fits, crate::proofs::Whole::check_short, crate::proofs::Whole::check_fallen))]
fn check_source(text_length: usize, source: Source<'_>) -> bool
    ensures { (result ≡ true) ↔ Sound text_length (words source.entry) source.entry.count }
{
    if !source.holds() {
        return false;
    }
    stands::all_stand(text_length, source) && nests::nest(source)
}

// Whether the first count tokens of the words are a sound sheet for a text of a length.
#[tactic(auto, using(packed::proofs::Packing::behind_words))]
pub fn check(text_length: usize, words: &[u32], count: usize) -> bool
    ensures { (result ≡ true) ↔ Sound text_length words.now count }
{
    let source = Source {
        words,
        bytes: b"",
        count,
    };
    check_source(text_length, source)
}

// The same of tokens that stand in bytes, as a sheet file has them.
#[tactic(auto, using(packed::proofs::Packing::behind_none))]
pub fn check_packed(text_length: usize, bytes: &[u8], count: usize) -> bool
    ensures { (result ≡ true) ↔ Sound text_length (words_packed bytes.now) count }
{
    let source = Source {
        words: &[],
        bytes,
        count,
    };
    check_source(text_length, source)
}

// Whether some words have room for count tokens, no more than a word numbers.
#[tactic(auto, using(crate::proofs::Onto::room_over, crate::proofs::Onto::room_held))]
fn has_room(words: &[u32], count: usize) -> bool
    ensures { result ≡ leb count (room_of words.now) }
{
    count <= u32::MAX as usize && words::holds(words, count)
}

// The same of tokens that words have room for: where they are sound, they are laid down.
#[tactic(auto, using(crate::proofs::Whole::check_fits, crate::proofs::Onto::onto_fallen, crate::proofs::Onto::onto_short))]
fn lay_sound(text_length: usize, bytes: &[u8], count: usize, words: &mut [u32]) -> bool
    requires { count ≤ room_of words.old }
    ensures sound { (result ≡ true) ↔ Sound text_length (words_packed bytes.now) count }
    ensures laid { result ≡ true → tokens_in words.new count ≡ tokens_in (words_packed bytes.now) count }
    ensures size { length words.new ≡ length words.old }
{
    let given = Source {
        words: &[],
        bytes,
        count,
    };
    if !given.holds() {
        return false;
    }
    stands::all_stand(text_length, given) && lays::nest_onto(bytes, words, count)
}

// The same of tokens that stand in bytes, which are laid down where they are sound and the words have room for them, with zeros behind
// them; else the words are left zero.
#[tactic(auto, using(crate::proofs::Onto::onto_no_room))]
pub fn check_onto(text_length: usize, bytes: &[u8], count: usize, words: &mut [u32]) -> bool
    ensures sound { (result ≡ true) ↔ Sound text_length (words_packed bytes.now) count }
    ensures left { words.new ≡ laid_onto result words.old (tokens_in (words_packed bytes.now) count) }
{
    if !has_room(words, count) {
        words::clear_from(words, 0);
        return check_packed(text_length, bytes, count);
    }
    if !lay_sound(text_length, bytes, count, words) {
        words::clear_from(words, 0);
        return false;
    }
    let laid = count as u32;
    words::clear_from(words, laid);
    true
}
