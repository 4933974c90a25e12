// The line format: hexadecimal digits, the fields of a request line, the bytes of an answer line, and
// where lines end. Nothing here knows an operation.
#![tactic(auto)]

pub mod digits;
pub mod fields;
pub mod found;
pub mod hex;
pub mod lines;
pub mod written;
