// Two convex shapes have a point strictly inside both exactly if no side of either has the other on its line or right of it: this crate has no code,
// only laws (document 02, A7). See proofs/.
#![tactic(auto)]
