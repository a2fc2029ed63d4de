// The tape: how many words a token has and what each word means is known here and nowhere else.
#![tactic(auto)]

// The codes of tokens.
pub mod codes;
// A token by value, made and told apart by name.
pub mod token;
// What a token's words make it.
pub mod shape;
// The words that tokens stand in.
pub mod words;
