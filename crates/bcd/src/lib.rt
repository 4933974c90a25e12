// The decimal adjusts by value, after cpu_808x/bcd.rs of MartyPC.
#![tactic(auto)]

pub mod adjust;
pub mod ascii;
pub mod decimal;
