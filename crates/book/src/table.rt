use crate::entry::{CellNumbers, EntryCell, EntryKind};

// One entry of a table: its cells are `cells` of the table's, from `first` on. Tables are supplied, in two lists, and may
// point past their cells: a book ends before such a row.
#[derive(Clone, Copy, Debug)]
pub struct Row {
    pub kind: EntryKind,
    pub first: usize,
    pub cells: usize,
    pub head: u8,
    pub body: CellNumbers<8>,
}

// Rows and the cells that they point to.
#[derive(Drop)]
pub struct Table<'a, L> {
    pub rows: &'a [Row],
    pub cells: &'a [EntryCell<L>],
}
