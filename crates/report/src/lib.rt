// What the programs write: numbers, the dump of a text, and the answers that are compared with the Rust's, each put into a lent
// buffer from a place on.
#![tactic(auto)]

// A date, and the date of a day.
pub mod dates;
// The dump of a text.
pub mod dump;
// How much is read, and the room that is lent.
pub mod limits;
// Decimal and hexadecimal digits.
pub mod numbers;
// The readings of a scalar.
pub mod readings;
// A refusal's number.
pub mod refusals;
// What is said of a sheet.
pub mod sheets;
// A dump's lines.
pub mod tokens;
