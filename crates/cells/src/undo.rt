// Joining a cell, and taking joins back.
ghost use Rattle.std.specs.Prelude.{◌≡◌, ◌<◌, length};
ghost use Rattle.unify.specs.Cells.{rejoin as rejoining};
ghost use Rattle.unify.specs.Unify.{clear};
ghost use Rattle.std.specs.List.{AllByRecursion};
ghost use Rattle.cells.specs.Cells.{cells_of, AllCounted};

use crate::cell::Cell;
use leaf::kind::Leaf;

// Joins a cell to another, or to none.
pub(crate) fn rejoin<L: Leaf>(cells: &mut [Cell<L>], i: u16, to: Option<u16>)
    requires inside { i < length cells.old }
    requires counted { AllCounted cells.old }
    ensures is { cells_of cells.new ≡ rejoining (cells_of cells.old) i to }
    ensures counted { AllCounted cells.new }
    ensures as_many { length cells.new ≡ length cells.old }
{
    cells[i as usize].joined = to;
}

// Takes the joins of a trail back, the latest first.
pub fn take_back<L: Leaf>(cells: &mut [Cell<L>], trail: &[u16])
    requires counted { AllCounted cells.old }
    requires inside { AllByRecursion (λ i. i < length cells.old) trail.now }
    ensures is { cells_of cells.new ≡ clear trail.now (cells_of cells.old) }
    ensures counted { AllCounted cells.new }
    ensures as_many { length cells.new ≡ length cells.old }
{
    for cell in trail.iter().rev() {
        rejoin(cells, *cell, None);
    }
}
