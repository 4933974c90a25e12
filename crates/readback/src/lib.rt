// Answer lines read back: one line, and a reader that goes through many.
#![tactic(auto)]

pub mod judge;
pub mod one;
pub mod reader;
pub mod told;
