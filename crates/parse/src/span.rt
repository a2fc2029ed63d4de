// A part of a text, by its places.
ghost use Rattle.std.specs.Prelude.{◌≤◌};
ghost use Rattle.parse.specs.Parse.{text_limit};

// A run from start to end, which fits a token's words.
#[derive(Clone, Copy)]
pub(crate) struct Span {
    pub start: usize,
    pub end: usize,
    ghost ordered: { start ≤ end },
    ghost within: { end ≤ text_limit },
}
