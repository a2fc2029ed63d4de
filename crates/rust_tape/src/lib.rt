// The Rust's parser, tape.rs, as a definition, and that on every text of demand 2's domain our parse answers as it does, and on every text within the limit
// where it cuts unquoted runs as we do. Nothing here runs.
#![tactic(auto)]
