// Exact whole-number reasoning: this crate has no code, only laws. See proofs/.
#![tactic(auto)]
