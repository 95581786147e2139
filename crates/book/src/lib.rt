// Rule books: what a book is asked, and books that stand on tables.
#![tactic(auto)]

pub mod annex;
pub mod entry;
mod good_rows;
pub mod interface;
mod questions;
pub mod rules;
pub mod table;
pub mod table_book;
