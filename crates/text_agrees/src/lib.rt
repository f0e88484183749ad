// That the machine answers what the definitions say is in specs/; this crate has no code.
#![tactic(auto)]
