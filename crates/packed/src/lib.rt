// Tokens as bytes, one behind the other, as a sheet file has them; and the one reading of a token that serves words and such bytes alike.
#![tactic(auto)]

// Numbers as bytes.
pub mod numbers;
// A token from words or from bytes.
pub mod source;
// Tokens read from bytes and put into them.
pub mod tokens;
