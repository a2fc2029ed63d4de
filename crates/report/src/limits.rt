// How much the programs read, and the room that they lend: document 01, 'The dump'.
use tape::words::WORDS_PER_TOKEN;

// The most bytes of an input.
pub const MOST_INPUT: usize = 32768;

// The most tokens of a dump.
pub const MOST_TOKENS: usize = 5000;

// The words that so many tokens take.
pub const TAPE_WORDS: usize = MOST_TOKENS * WORDS_PER_TOKEN;

// Bytes that hold the dump of any input on a tape of so many words, which is proved of `dump::save_lines`.
pub const DUMP_BYTES: usize = 262144;
