// Multiply, after cpu_808x/muldiv.rs of MartyPC: `mul` at either width. Flags and steps go in and
// come out by value.
#![tactic(auto)]

pub mod mul;
