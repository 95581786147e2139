// The steps that stand, each with what is needed to take it back and to find the goals that it left.
use calls::step::Step;

// A goal to be taken: its cell, whether it is inner, the step that left it, or none for a goal of the list, and its
// place among that step's goals, or in the list.
#[derive(Clone, Copy, Default)]
pub struct Goal {
    pub cell: u16,
    pub inner: bool,
    pub parent: Option<u16>,
    pub place: u8,
}

// A step that stands: the goal that it took, the step, and how many cells were in use and how many joins were on the
// trail before it, in 16 bits each, so that frames stay small. A list is filled with default ones; what those hold does not matter.
#[derive(Clone, Copy, Default)]
pub struct Frame {
    pub goal: Goal,
    pub step: Step,
    pub used: u16,
    pub trail: u16,
}

// Which tries of a goal are left: the steps on its path from one on, nearest first, and then the entries from one on.
#[derive(Clone, Copy)]
pub struct Cursor {
    pub path: Option<u16>,
    pub entry: u16,
}
