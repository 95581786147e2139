// A conversation with an accession register: the rules for its runs, and three clients.
#![tactic(auto)]

pub mod clients;
pub mod rule_book;
mod rules;
mod symbols;
pub mod writing;
