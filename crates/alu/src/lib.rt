// The 8088's ALU operations, after cpu_common/alu.rs of MartyPC, named as there: one function for both widths.
// No operation refuses and none asks anything of its caller. What the shifts and rotates share is in `at_once`
// and `last`; `step` is a single step of them, as CORX and CORD make one at a time.
#![tactic(auto)]

pub mod addition;
pub mod at_once;
pub mod last;
pub mod result;
pub mod rotate;
pub mod shift;
pub mod step;
pub mod subtraction;
