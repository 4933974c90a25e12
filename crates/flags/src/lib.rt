// The ground of the 8088's arithmetic: numbers of 8 and 16 bits, the flags word, and P.
// Everything above takes these by value; nothing here knows an operation.
#![tactic(auto)]

pub mod number;
pub mod parity;
pub mod word;
