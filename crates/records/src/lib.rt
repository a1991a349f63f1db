// Numbers, lists and records as bytes (document 01, "The plan file"), and doubles ("Printing program").
#![tactic(auto)]

pub mod bits;
pub mod bytes;
pub mod list;
pub mod record;
