// Drawing on the tablet (document 02, A2): the listing's counts, and for each corner that a row names its offset from the stand in single precision.
#![tactic(auto)]

pub mod drawing;
pub mod offset;
