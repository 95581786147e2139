// Questions about a slate. They take it by `&mut`, as its calls do, and promise that nothing changed.
ghost use Rattle.std.specs.Prelude.{◌≡◌, length, take, vec_items};

use crate::input::in_use;
use crate::refusal::Refusal;
use crate::slate::Slate;
use cells::cell::Cell;
use cells::chains::{node_at_root, root};
use leaf::kind::Leaf;

impl<L: Leaf> Slate<L> {
    ghost use Rattle.slate.specs.Slates.{in_use as cells_of_use, Reads, Leads, TellsAtom};

    // The cells in use.
    fn written(&self) -> &[Cell<L>]
        ensures { result.now ≡ take self.now.used (vec_items self.now.cells) }
    {
        &self.cells[..self.used]
    }

    // How many cells are in use.
    pub fn cells_in_use(&mut self) -> usize
        ensures is { result ≡ length (cells_of_use self.old) }
        ensures unchanged { self.new ≡ self.old }
    {
        self.written().len()
    }

    // Reads a cell.
    pub fn read(&mut self, cell: u16) -> Result<Cell<L>, Refusal>
        ensures reads { Reads self.old cell result }
        ensures unchanged { self.new ≡ self.old }
    {
        in_use(self.used, cell)?;
        Ok(self.written()[cell as usize])
    }

    // Follows the joins of a cell to their end.
    pub fn root(&mut self, cell: u16) -> Result<u16, Refusal>
        ensures leads { Leads self.old cell result }
        ensures unchanged { self.new ≡ self.old }
    {
        in_use(self.used, cell)?;
        let end = root(self.written(), cell);
        Ok(end)
    }

    // Says whether a term is a node or joined to one.
    pub fn is_atom(&mut self, cell: u16) -> Result<bool, Refusal>
        ensures tells { TellsAtom self.old cell result }
        ensures unchanged { self.new ≡ self.old }
    {
        in_use(self.used, cell)?;
        Ok(node_at_root(self.written(), cell))
    }
}
