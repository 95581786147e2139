use book::entry::{CellNumbers, EntryCell};

// The head and the body goals of an entry.
#[derive(Clone, Copy)]
pub struct Goals {
    pub head: u8,
    pub body: CellNumbers<8>,
}

// What a field adds to the entry that is being read: one more cell, or its goals.
#[derive(Clone, Copy)]
pub enum Item<L> {
    Cell(EntryCell<L>),
    Goals(Goals),
}
