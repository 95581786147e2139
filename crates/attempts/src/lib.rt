// The inner engine of solve and check: steps tried on the cells of a slate, and taken back. Its functions ask for cells
// in solved form, and are called only by the solver, which keeps them so.
#![tactic(auto)]

pub mod extent;
mod instance;
pub mod store;
