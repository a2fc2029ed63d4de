// A token of a sheet by its index: its code, the token that it names, and its part of the text. Every call is total, over
// any words, count, index and text.
ghost use Rattle.std.specs.Prelude.{◌≡◌, length};
ghost use Rattle.sheet.specs.Views.{refusal_of, code_in, link_in, placed, viewed, part_of, place_of};

use tape::shape::{Link, Shape};
use tape::{shape, words};

// Where a token's view lies.
#[derive(Clone, Copy)]
pub struct Viewed {
    pub offset: usize,
    pub length: usize,
}

// Document 01's number for the refusal of a view that is not there.
pub const NO_SCALAR: u32 = 12;

// The refusal's number of a view, 0 where there is one.
pub fn refusal(view: Option<Viewed>) -> u32
    ensures { result ≡ refusal_of view }
{
    match view {
        Some(_) => 0,
        None => NO_SCALAR,
    }
}

// A token's code, 0 where there is no token.
#[tactic(auto, unfolding(crate::specs::Views::code_in))]
pub fn code(words: &[u32], count: usize, index: usize) -> u32
    ensures { result ≡ code_in words.now count index }
{
    words::token_of(words, count, index).code
}

// The index of an opener's End or of an End's opener, 0 where there is none.
#[tactic(auto, unfolding(crate::specs::Views::link_in, tape::specs::Words::token_in))]
pub fn link(words: &[u32], count: usize, index: usize) -> u32
    ensures { result ≡ link_in words.now count index }
{
    match shape::link_of(words::token_of(words, count, index)) {
        Some(Link::ToEnd(other)) | Some(Link::ToOpener(other)) => other,
        None => 0,
    }
}

// Where the view of a token of a shape lies in a text of a length.
#[tactic(auto, unfolding(crate::specs::Views::placed))]
fn place(text_length: usize, shape: Option<Shape>) -> Option<Viewed>
    ensures { result ≡ placed text_length shape }
{
    let Some(Shape::Scalar { offset, length, .. }) = shape else {
        return None;
    };
    let view = Viewed {
        offset: offset as usize,
        length: length as usize,
    };
    if text_length < view.offset + view.length {
        return None;
    }
    Some(view)
}

// Whether token `index` has a view, and where it lies.
#[tactic(auto, using(crate::proofs::Parts::view_past, crate::proofs::Parts::view_short, crate::proofs::Parts::view_placed))]
pub fn view_of(text: &[u8], words: &[u32], count: usize, index: usize) -> Option<Viewed>
    ensures { result ≡ viewed (length text.now) words.now count index }
{
    if count <= index {
        return None;
    }
    if !words::holds(words, count) {
        return None;
    }
    place(
        text.len(),
        shape::shape_of(words::token_of(words, count, index)),
    )
}

// The part of the text that token `index` views, empty and at the text's start where `view_of` refuses: its bytes, and where it lies.
pub fn view<'a, 'b>(text: &'a [u8], words: &'b [u32], count: usize, index: usize) -> &'a [u8]
    ensures bytes { result.now ≡ part_of text.now (viewed (length text.now) words.now count index) }
    ensures place { result.ref_ptr ≡ place_of text.entry.ref_ptr (viewed (length text.now) words.now count index) }
{
    match view_of(text, words, count, index) {
        Some(view) => {
            let end = view.offset + view.length;
            &text[view.offset..end]
        }
        None => &text[..0],
    }
}
