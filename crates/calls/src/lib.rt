// The calls of a sitting, and what they answer.
#![tactic(auto)]

pub mod answer;
pub mod call;
pub mod step;
