ghost use Rattle.std.specs.Prelude.{◌≡◌};
ghost use Rattle.theory.specs.Entries.{BookRules};
ghost use Rattle.book.specs.Tables.{TableMeans, row_entries, table_entries};

use crate::entry::{EntryCell, Outline};
use crate::good_rows::good_rows;
use crate::interface::Book;
use crate::table::{Row, Table};
use leaf::kind::Leaf;

// A book that stands on a table: rows, and the cells that they point to. Whoever makes one of rows and cells owes the
// entry rules.
#[derive(Drop)]
pub struct TableBook<'a, L> {
    pub rows: &'a [Row],
    pub cells: &'a [EntryCell<L>],
    ghost keeps: { ∥ BookRules (row_entries cells.now rows.now) ∥₁ },
}

impl<'a, L: Leaf> TableBook<'a, L> {
    // The entries before the table's first faulty row.
    pub fn new(rows: &'a [Row], cells: &'a [EntryCell<L>]) -> TableBook<'a, L>
        ensures { TableMeans cells.now rows.now (row_entries result.cells.now result.rows.now) }
    {
        let good = good_rows(rows, cells);
        TableBook {
            rows: &rows[..good],
            cells,
        }
    }
}

impl<L: Leaf> TableBook<'_, L> {
    // The rows and cells as a table, which answers over all of them.
    fn table(&self) -> Table<'_, L>
        ensures { table_entries result ≡ row_entries self.now.cells.now self.now.rows.now }
    {
        Table {
            rows: self.rows,
            cells: self.cells,
        }
    }
}

impl<L: Leaf> Book<L> for TableBook<'_, L> {
    ghost entries = { λ b. row_entries b.cells.now b.rows.now };

    ghost rules = { λ b. b.keeps };

    fn len(&self) -> usize {
        self.table().len()
    }

    fn outline(&self, entry: usize) -> Option<Outline> {
        self.table().outline(entry)
    }

    fn cell(&self, entry: usize, cell: usize) -> Option<EntryCell<L>> {
        self.table().cell(entry, cell)
    }

    fn goal(&self, entry: usize, goal: usize) -> Option<u8> {
        self.table().goal(entry, goal)
    }
}
