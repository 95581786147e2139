// The good entries of a book, kept for its questions.
ghost use Rattle.std.specs.Prelude.{◌≡◌, ◌+◌, ◌≤◌, List, [], length, IfOk, OnOk};
ghost use Rattle.theory.specs.Entries.{BookRules, Part};
ghost use Rattle.book.specs.Tables.{row_entries};
ghost use Rattle.form.specs.Meanings.{meaning};
ghost use Rattle.wire.specs.Reads.{Adds, Stores};

use crate::cursor::{Entries, Fields};
use crate::good_entry::GoodEntry;
use crate::item::Item;
use book::entry::EntryCell;
use book::table::Row;
use form::fault::Fault;
use leaf::kind::WireLeaf;
use std::alloc::{AllocError, Global};

// The rows and the cells of good entries.
#[derive(Drop)]
pub struct Store<L> {
    pub rows: Vec<Row>,
    pub cells: Vec<EntryCell<L>>,
}

impl<L: WireLeaf> Store<L> {
    pub fn new(heap: Global) -> Store<L>
        ensures rows { result.rows.items ≡ [] }
        ensures cells { result.cells.items ≡ [] }
    {
        Store {
            rows: Vec::new(heap),
            cells: Vec::new(heap),
        }
    }

    // Adds the entries of a book's bytes, up to the first fault, and gives that fault.
    pub fn load(&mut self, bytes: &[u8]) -> Result<Option<Fault>, AllocError>
        requires { (self.old.rows.items ≡ []) × (self.old.cells.items ≡ []) }
        ensures rules { OnOk result ∥ BookRules (row_entries self.new.cells.items self.new.rows.items) ∥₁ }
        ensures means { IfOk result (λ f. ((meaning L.WireLeaf.wide L.WireLeaf.reading bytes.now).entries ≡ row_entries self.new.cells.items self.new.rows.items) × ((meaning L.WireLeaf.wide L.WireLeaf.reading bytes.now).first_fault ≡ f)) }
    {
        // A fault is what is given here, and no error, so `?` does not pass it on.
        let mut entries = match Entries::of(bytes) {
            Ok(entries) => entries,
            Err(fault) => return Ok(Some(fault)),
        };
        loop {
            match entries.next::<L>() {
                Ok(Some(entry)) => self.add(&entry)?,
                Ok(None) => return Ok(None),
                Err(fault) => return Ok(Some(fault)),
            }
        }
    }

    // Adds a good entry.
    fn add(&mut self, entry: &GoodEntry<'_>) -> Result<(), AllocError>
        ensures { OnOk result ((ps : List (Part L)) → Adds L.WireLeaf.wide L.WireLeaf.reading «entry».now ps self.old self.new) }
    {
        let first = self.cells.len();
        self.add_cells(entry)?;
        let row = Row {
            kind: entry.kind,
            first,
            cells: self.cells.len().saturating_sub(first),
            head: entry.goals.head,
            body: entry.goals.body,
        };
        self.rows.push(row)?;
        Ok(())
    }

    // Adds the cells of a good entry.
    fn add_cells(&mut self, entry: &GoodEntry<'_>) -> Result<(), AllocError>
        ensures rows { OnOk result (self.new.rows ≡ self.old.rows) }
        ensures cells { OnOk result (Stores L.WireLeaf.wide L.WireLeaf.reading «entry».now.spot.place «entry».now.contents.now self.old.cells.items self.new.cells.items) }
    {
        let mut fields = Fields::of(entry.contents, entry.spot);
        while let Ok(Some(Item::Cell(cell))) = fields.next::<L>() {
            self.cells.push(cell)?;
        }
        Ok(())
    }
}
