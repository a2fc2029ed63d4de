// A token of a sheet that stands in words, or in bytes as a file has it: two slices, of which the bytes are read where there are some,
// and the words where there are none.
ghost use Rattle.std.specs.Prelude.{◌≡◌, leb, length};
ghost use Rattle.tape.specs.Words.{words_for, token_in};
ghost use Rattle.packed.specs.Source.{words};

use crate::tokens;
use crate::tokens::BYTES_PER_TOKEN;
use tape::token::Token;
use tape::words;

// The first count tokens of the words, or of the bytes where there are some.
#[derive(Clone, Copy)]
pub struct Source<'a> {
    pub words: &'a [u32],
    pub bytes: &'a [u8],
    pub count: usize,
}

impl Source<'_> {
    // Token i of the count, or the token of zeros where there is none.
    #[tactic(auto, using(crate::proofs::Packing::behind_words, crate::proofs::Packing::behind_bytes))]
    pub fn token(self, i: usize) -> Token
        ensures { result ≡ token_in (words self.entry) self.entry.count i }
    {
        if self.bytes.len() == 0 {
            return words::token_of(self.words, self.count, i);
        }
        tokens::token_of(self.bytes, self.count, i)
    }

    // Whether all tokens of the count are there.
    #[tactic(auto, using(crate::proofs::Packing::behind_words, crate::proofs::Packing::behind_bytes, crate::proofs::Packing::packed_holds))]
    pub fn holds(self) -> bool
        ensures { result ≡ leb (words_for self.entry.count) (length (words self.entry)) }
    {
        if self.bytes.len() == 0 {
            return words::holds(self.words, self.count);
        }
        self.count <= self.bytes.len() / BYTES_PER_TOKEN
    }
}
