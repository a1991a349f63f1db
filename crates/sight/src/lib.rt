// Sight: the listing over the expansion (document 01, "Expansion").
#![tactic(auto)]

pub mod ceiling;
pub mod list;
pub mod seen;
pub mod view;
