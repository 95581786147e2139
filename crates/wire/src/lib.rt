// Books as bytes: reading, inspecting, writing and listing them.
#![tactic(auto)]

mod book_entry;
pub mod byte_book;
mod cursor;
mod decode;
mod entries;
pub mod field;
mod fields;
mod good_entry;
pub mod inspect;
mod item;
pub mod lines;
pub mod list_refusal;
pub mod listing;
mod put;
mod put_entry;
mod read_contents;
mod read_entry;
mod read_field;
mod sizes;
mod split;
mod spot;
mod store;
mod tag;
pub mod writer;
