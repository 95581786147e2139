ghost use Rattle.std.specs.Prelude.{◌≡◌, IfOk};
ghost use Rattle.theory.specs.Entries.{BookRules};
ghost use Rattle.book.specs.Tables.{row_entries};
ghost use Rattle.form.specs.Meanings.{meaning};

use crate::store::Store;
use book::entry::{EntryCell, Outline};
use book::interface::Book;
use book::table_book::TableBook;
use form::fault::Fault;
use leaf::kind::{Leaf, WireLeaf};
use std::alloc::{AllocError, Global};

// A book read from bytes: the entries before their first fault. The bytes are read once, when it is opened.
#[derive(Drop)]
pub struct ByteBook<L> {
    store: Store<L>,
    fault: Option<Fault>,
    ghost keeps: { ∥ BookRules (row_entries store.cells.items store.rows.items) ∥₁ },
}

impl<L: WireLeaf> ByteBook<L> {
    pub fn open(heap: Global, bytes: &[u8]) -> Result<ByteBook<L>, AllocError>
        ensures { IfOk result (λ b. (row_entries b.store.cells.items b.store.rows.items ≡ (meaning L.WireLeaf.wide L.WireLeaf.reading bytes.now).entries) × (b.fault ≡ (meaning L.WireLeaf.wide L.WireLeaf.reading bytes.now).first_fault)) }
    {
        let mut store = Store::new(heap);
        let fault = store.load(bytes)?;
        Ok(ByteBook { store, fault })
    }
}

impl<L: Leaf> ByteBook<L> {
    // The first fault of the bytes, before which the book ends, or none.
    pub fn fault(&self) -> Option<Fault>
        ensures { result ≡ self.now.fault }
    {
        self.fault
    }

    // The entries as a book that stands on a table.
    fn table(&self) -> TableBook<'_, L>
        ensures { row_entries result.cells.now result.rows.now ≡ row_entries self.now.store.cells.items self.now.store.rows.items }
    {
        TableBook {
            rows: self.store.rows.as_slice(),
            cells: self.store.cells.as_slice(),
        }
    }
}

// The table answers; passing the four questions on is no longer than a trait for what holds a table would be.
impl<L: Leaf> Book<L> for ByteBook<L> {
    ghost entries = { λ b. row_entries b.store.cells.items b.store.rows.items };

    ghost rules = { λ b. b.keeps };

    fn len(&self) -> usize {
        self.table().len()
    }

    fn outline(&self, entry: usize) -> Option<Outline> {
        self.table().outline(entry)
    }

    fn cell(&self, entry: usize, cell: usize) -> Option<EntryCell<L>> {
        self.table().cell(entry, cell)
    }

    fn goal(&self, entry: usize, goal: usize) -> Option<u8> {
        self.table().goal(entry, goal)
    }
}
