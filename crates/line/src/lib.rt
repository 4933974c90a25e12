// Request lines answered: one line, and a run over many.
#![tactic(auto)]

pub mod one;
pub mod run;
