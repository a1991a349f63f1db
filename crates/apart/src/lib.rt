// The test for overlapping cells says yes exactly if some point lies strictly inside both, and what follows for a plan (document 02, A7): this crate has no
// code, only laws. See proofs/.
#![tactic(auto)]
