// What solve and check test of the goals and of the lists that they are lent.
ghost use Rattle.std.specs.Prelude.{◌<◌, ◌≤◌, length, take};
ghost use Rattle.std.specs.List.{AllByRecursion};
ghost use Rattle.cells.specs.Cells.{cells_of, WellFormed};
ghost use Rattle.solver.specs.Admission.{AllAtoms, Admits};

use cells::cell::Cell;
use cells::chains::node_at_root;
use leaf::kind::Leaf;
use slate::input::{all_in_use, long_enough};
use slate::refusal::Refusal;

// Refuses the first goal that is neither a node nor joined to one.
pub(crate) fn all_atoms<L: Leaf>(
    cells: &[Cell<L>],
    used: usize,
    goals: &[u16],
) -> Result<(), Refusal>
    requires part { used ≤ length cells.now }
    requires sound { WellFormed (take used cells.now) }
    requires inside { AllByRecursion (λ g. g < used) goals.now }
    ensures { AllAtoms (cells_of (take used cells.now)) goals.now result }
{
    for goal in goals {
        if !node_at_root(&cells[..used], *goal) {
            return Err(Refusal::NotAnAtom { cell: *goal });
        }
    }
    Ok(())
}

// Refuses goals that cannot be taken, and lists that are too short. The cells are taken as the search takes them, and not as
// a slate, so that all that speaks of them speaks of one list.
pub(crate) fn admit<L: Leaf>(
    cells: &[Cell<L>],
    used: usize,
    goals: &[u16],
    work: usize,
    frames: usize,
    needed: usize,
) -> Result<(), Refusal>
    requires part { used ≤ length cells.now }
    requires sound { WellFormed (take used cells.now) }
    ensures { Admits (cells_of (take used cells.now)) used (length cells.now)
        goals.now work frames needed result }
{
    all_in_use(used, goals)?;
    all_atoms(cells, used, goals)?;
    long_enough(cells.len(), work)?;
    if frames < needed {
        return Err(Refusal::TooShort);
    }
    Ok(())
}
