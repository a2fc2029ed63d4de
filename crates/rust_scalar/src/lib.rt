// The Rust's readings, scalar.rs, as definitions, and that for every scalar ours answer as they do. Nothing here runs.
#![tactic(auto)]
