// Divide, after cpu_808x/muldiv.rs of MartyPC: PREIDIV and POSTIDIV around CORD, then div.
// Flags and steps go in and come out by value; a refusal is a value too, and no trap.
#![tactic(auto)]

pub mod div;
