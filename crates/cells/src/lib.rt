// The inner engine of slates and of the solver: its functions ask for cells in solved form, and are called only by the
// crates above, which keep them so.
#![tactic(auto)]

pub mod cell;
pub mod chains;
mod joins;
pub mod undo;
pub mod unifier;
