// What the record of each action says is in specs/ and proofs/; this crate has no code.
#![tactic(auto)]
