// A slate: supplied cells, of which the first so many are in use.
pub mod questions;
pub mod terms;
pub mod writes;

ghost use Rattle.std.specs.Prelude.{◌≤◌, take, vec_len};
ghost use Rattle.cells.specs.Cells.{WellFormed};

use cells::cell::Cell;

// The cells in use are in solved form. How many they are stands beside the supplied cells, since no call allocates.
// Cells past the first 2,048 are never in use. The fields are open to the solver: whoever changes them owes the ghost
// fields.
#[derive(Drop)]
pub struct Slate<L> {
    pub cells: Vec<Cell<L>>,
    pub used: usize,
    ghost within: { used ≤ vec_len cells },
    ghost few: { used ≤ 2048 },
    ghost sound: { ∥ WellFormed (take used cells.items) ∥₁ },
}
