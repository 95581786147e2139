// The solver: solve searches for a record of goals, check replays one, and sit makes a whole list of calls. All three
// keep the promise of sittings.
#![tactic(auto)]

mod answers;
mod bounds;
pub mod check;
mod conclude;
mod derivation;
mod ending;
mod input;
mod limits;
mod make;
mod replay;
mod rules;
mod run;
mod search;
pub mod sit;
pub mod solve;
pub mod solved;
