// The promises are theorems over the definitions that the other crates' contracts cite. They stand in proofs/, and nothing here runs.
#![tactic(auto)]
