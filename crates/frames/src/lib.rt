// The inner engine of solve and check: the steps that stand, the goals that they leave, and the tries of a goal. Its
// functions ask for frames that the solver keeps, and are called only by it.
#![tactic(auto)]

pub mod frame;
pub mod goals;
pub mod mode;
pub mod tries;
