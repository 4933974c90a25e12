// The nine operations over a register record, each by its name: the five adjusts, multiply and divide at either
// width. Their types leave nothing to refuse but flags outside 08D5, a full total, and what the chip refuses.
#![tactic(auto)]

pub mod by_value;
pub mod lent;
