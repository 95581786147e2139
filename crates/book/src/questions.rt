// The questions of a book, answered over all rows of a table, good or not.
ghost use Rattle.std.specs.Prelude.{◌≡◌, ◌-◌, min, length};
ghost use Rattle.std.specs.Option.{option_map};
ghost use Rattle.book.specs.Answers.{cell_at, goal_at, outline_at, part_of};
ghost use Rattle.book.specs.Tables.{table_entries};

use crate::entry::{EntryCell, Outline};
use crate::table::{Row, Table};
use leaf::kind::Leaf;

impl<L: Leaf> Table<'_, L> {
    pub fn len(&self) -> usize
        ensures { result ≡ length (table_entries self.now) }
    {
        self.rows.len()
    }

    // How many of the table's cells the row has.
    fn own_count(&self, row: &Row) -> usize
        ensures { result ≡ min (length self.now.cells.now - row.now.first) row.now.cells }
    {
        self.cells.len().saturating_sub(row.first).min(row.cells)
    }

    pub fn outline(&self, entry: usize) -> Option<Outline>
        ensures { result ≡ outline_at (table_entries self.now) «entry» }
    {
        let row = self.rows.get(entry)?;
        let cells = self.own_count(row);
        Some(Outline {
            kind: row.kind,
            cells,
            head: row.head,
            goals: row.body.len as usize,
        })
    }

    pub fn cell(&self, entry: usize, cell: usize) -> Option<EntryCell<L>>
        ensures { option_map part_of result ≡ cell_at (table_entries self.now) «entry» «cell» }
    {
        let row = self.rows.get(entry)?;
        if cell >= self.own_count(row) {
            return None;
        }
        let cells = self.cells;
        Some(cells[row.first + cell])
    }

    pub fn goal(&self, entry: usize, goal: usize) -> Option<u8>
        ensures { result ≡ goal_at (table_entries self.now) «entry» «goal» }
    {
        let row = self.rows.get(entry)?;
        row.body.get(goal)
    }
}
