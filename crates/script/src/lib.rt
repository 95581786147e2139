// The text of a sitting: the script of its calls, and the lines of their answers.
#![tactic(auto)]

pub mod answer_line;
pub mod fault;
pub mod lengths;
mod lent;
pub mod message;
pub mod number;
pub mod pieces;
pub mod script;
mod statement;
mod words;
