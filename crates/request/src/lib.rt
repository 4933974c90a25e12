// Requests: raw, as a caller sends them, and decoded. An op and a mode name an operation (statuses 3 and 4); X, Y
// and the flags must fit it (status 5). No caller has checked anything.
#![tactic(auto)]

pub mod decode;
pub mod operation;
pub mod raw;
