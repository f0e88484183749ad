// That the machine's answer to a text is the definitions' is in specs/; this crate has no code.
#![tactic(auto)]
