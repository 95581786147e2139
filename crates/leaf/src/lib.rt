// Leaf kinds: what the leaves of a tree are, how they are compared, and how they are written as bytes.
#![tactic(auto)]

pub mod accession_number;
pub mod kind;
pub mod letter;
pub mod output;
pub mod shelf_mark;
