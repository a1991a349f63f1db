// Stands: whole millimetres, offsets, and the stand's cell (document 01, "The stand").
#![tactic(auto)]

pub mod locate;
pub mod spot;
