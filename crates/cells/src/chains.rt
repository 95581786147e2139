// Reading cells, and following their joins.
ghost use Rattle.std.specs.Prelude.{◌≡◌, ◌<◌, ◌≤◌, length};
ghost use Rattle.unify.specs.Cells.{joined_at, content_at};
ghost use Rattle.unify.specs.Cells.{root as root_of, rank as rank_at};
ghost use Rattle.unify.specs.Solved.{Descends};
ghost use Rattle.cells.specs.Cells.{cells_of, content_of, Counted, AllCounted, WellFormed};
ghost use Rattle.cells.specs.Loops.{TellsNode};

use crate::cell::{Cell, Content};
use leaf::kind::Leaf;

// What a cell is joined to.
pub(crate) fn link<L: Leaf>(cells: &[Cell<L>], i: u16) -> Option<u16>
    requires { i < length cells.now }
    ensures { result ≡ joined_at (cells_of cells.now) i }
{
    cells[i as usize].joined
}

// What was written into a cell.
pub fn written<L: Leaf>(cells: &[Cell<L>], i: u16) -> Content<L>
    requires inside { i < length cells.now }
    requires counted { AllCounted cells.now }
    ensures is { content_of result ≡ content_at (cells_of cells.now) i }
    ensures counted { Counted result }
{
    cells[i as usize].content
}

// The cell at the end of the chain of joins.
pub fn root<L: Leaf>(cells: &[Cell<L>], i: u16) -> u16
    requires inside { i < length cells.now }
    requires few { length (cells_of cells.now) ≤ 2048 }
    requires descends { Descends (cells_of cells.now) }
    ensures is { result ≡ root_of (cells_of cells.now) i }
    ensures inside { result < length cells.now }
{
    // cells name one another by number in the supplied list, so the walk follows these numbers
    let mut at = i;
    while let Some(next) = link(cells, at) {
        at = next;
    }
    at
}

// The rank of a cell: joins go to lower ranks.
#[tactic(auto, unfolding(unify::specs::Cells::rank))]
pub(crate) fn rank<L: Leaf>(cells: &[Cell<L>], i: u16) -> u16
    requires inside { i < length cells.now }
    requires few { length (cells_of cells.now) ≤ 2048 }
    requires counted { AllCounted cells.now }
    ensures { result ≡ rank_at (cells_of cells.now) i }
{
    match written(cells, i) {
        Content::Open => 2048 + i,
        Content::Leaf(_) | Content::Node { .. } => i,
    }
}

// Says whether a node stands at the root of a cell.
pub fn node_at_root<L: Leaf>(cells: &[Cell<L>], i: u16) -> bool
    requires sound { WellFormed cells.now }
    requires inside { i < length cells.now }
    ensures { TellsNode (content_at (cells_of cells.now) (root_of (cells_of cells.now) i)) result }
{
    let end = root(cells, i);
    matches!(written(cells, end), Content::Node { .. })
}
