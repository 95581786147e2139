// The form of a book: its entries as bytes, what bytes mean, and the first fault in them.
#![tactic(auto)]

pub mod fault;
pub mod theorems;
