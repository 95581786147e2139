ghost use Rattle.book.specs.Tables.{GoodRows};

use crate::entry::EntryCell;
use crate::interface::MOST_ENTRIES;
use crate::rules::row_keeps;
use crate::table::Row;
use leaf::kind::Leaf;

// How many rows come before the first faulty one, at most 1,024.
pub fn good_rows<L: Leaf>(rows: &[Row], cells: &[EntryCell<L>]) -> usize
    ensures { GoodRows cells.now rows.now result }
{
    let rows = &rows[..rows.len().min(MOST_ENTRIES)];
    rows.iter()
        .position(|row| !row_keeps(cells, row))
        .unwrap_or(rows.len())
}
