// Answers requests: a record for the answer, the charts by operation, and raw requests.
#![tactic(auto)]

pub mod answer;
pub mod ask;
pub mod chart;
