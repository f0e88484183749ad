// The promises over the definitions are in specs/ and proofs/; this crate has no code.
#![tactic(auto)]
