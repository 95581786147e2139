// The limits of slates.

// Cells past these are no part of a slate.
pub const MOST_CELLS: usize = 2048;

// No node has more arguments.
pub const MOST_ARGUMENTS: usize = 4;

// How many numbers a work list has for each cell of the slate.
pub const WORK_PER_CELL: usize = 9;
