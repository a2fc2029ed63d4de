// What is written: a sheet, with the text that its views lie in.
ghost use Rattle.std.specs.Prelude.{◌≡◌};
ghost use Rattle.tape.specs.Words.{token_in};
ghost use Rattle.writer.specs.Pieces.{piece_of};

use crate::pieces;
use crate::pieces::Piece;
use tape::token::Token;
use tape::words;

// The first count tokens of the words, and their text.
#[derive(Clone, Copy)]
pub(crate) struct Source<'a> {
    pub(crate) text: &'a [u8],
    pub(crate) words: &'a [u32],
    pub(crate) count: usize,
}

impl Source<'_> {
    // The token at a place.
    pub(crate) fn token(self, i: usize) -> Token
        ensures { result ≡ token_in self.entry.words.now self.entry.count i }
    {
        words::token_of(self.words, self.count, i)
    }

    // What the token at a place is to the writer.
    pub(crate) fn piece(self, i: usize) -> Piece
        ensures { result ≡ piece_of (token_in self.entry.words.now self.entry.count i) }
    {
        pieces::piece_of(self.token(i))
    }
}
