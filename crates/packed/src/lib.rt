// Packed decimal strings: two digits a byte, the lowest byte first. They are added by ADC and DAA and
// subtracted by SBB and DAS, byte by byte.
#![tactic(auto)]

pub mod byte;
pub mod judge;
pub mod string;
pub mod told;
