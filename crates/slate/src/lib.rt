// Slates: terms in supplied cells, written, equated and compared.
#![tactic(auto)]

pub mod input;
pub mod limits;
pub mod meaning;
pub mod refusal;
pub mod slate;

// What lies in a slate, for those who call one.
pub use cells::cell;
