// Corners and cells of a plan: what a plan is and what an accepted one is known to be (document 01, "The plan file" and "Side value and plan check").
#![tactic(auto)]

pub mod corner;
