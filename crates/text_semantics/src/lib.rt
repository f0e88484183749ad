// The definitions of models as text are in specs/; this crate has no code.
#![tactic(auto)]
