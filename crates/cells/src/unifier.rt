// Unifying and comparing two of the first so many cells, with a work list for the trail of those that are joined. Both take
// all cells and how many are in use: a part of the cells of a slate that were lent in its caller is not followed back to it.
ghost use Rattle.std.specs.Prelude.{◌≡◌, ◌≤◌, length, take, is_some, IfSome};
ghost use Rattle.cells.specs.Cells.{cells_of, WellFormed};
ghost use Rattle.cells.specs.Loops.{Given, Unifies, Did, Told, trail_of};

use crate::cell::Cell;
use crate::joins::join;
use crate::undo::take_back;
use leaf::kind::Leaf;

// Makes two cells equal where some reading allows it, and says how many it joins: these stand first in the work list.
// Where none does, the joins are taken back.
pub fn unify<L: Leaf>(
    cells: &mut [Cell<L>],
    used: usize,
    work: &mut [u16],
    a: u16,
    b: u16,
) -> Option<usize>
    requires part { used ≤ length cells.old }
    requires given { Given (take used cells.old) work.old a b }
    ensures unifies { Unifies L.PartialEq.eq (cells_of (take used cells.old)) a b (is_some result)
        (cells_of (take used cells.new)) (trail_of result work.new) }
    ensures did { Did (cells_of (take used cells.old))
        (cells_of (take used cells.new)) a b (is_some result) }
    ensures sound { WellFormed (take used cells.new) }
    ensures as_many { length cells.new ≡ length cells.old }
    ensures inside { IfSome result (λ n. n ≤ length work.new) }
{
    let cells = &mut cells[..used];
    let (met, joined) = join(cells, work, true, a, b);
    if met.is_ok() {
        return Some(joined);
    }
    take_back(cells, &work[..joined]);
    None
}

// Says whether every reading gives the two cells the same tree; the cells are left as they were.
pub fn compare<L: Leaf>(
    cells: &mut [Cell<L>],
    used: usize,
    work: &mut [u16],
    a: u16,
    b: u16,
) -> bool
    requires part { used ≤ length cells.old }
    requires given { Given (take used cells.old) work.old a b }
    ensures told { Told (cells_of (take used cells.old)) a b result }
    ensures left { cells_of (take used cells.new) ≡ cells_of (take used cells.old) }
    ensures sound { WellFormed (take used cells.new) }
    ensures as_many { length cells.new ≡ length cells.old }
{
    let cells = &mut cells[..used];
    let (met, joined) = join(cells, work, false, a, b);
    take_back(cells, &work[..joined]);
    met.is_ok()
}
