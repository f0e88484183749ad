// The promises over the definitions of texts are in specs/; this crate has no code.
#![tactic(auto)]
