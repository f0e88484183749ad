// The definitions of document 01 are in specs/; this crate has no code.
#![tactic(auto)]
