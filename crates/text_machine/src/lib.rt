// The reader of texts as a machine is in specs/; this crate has no code.
#![tactic(auto)]
