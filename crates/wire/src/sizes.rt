// How many bytes the entries of a book are written as.
ghost use Rattle.std.specs.Prelude.{◌≡◌, ◌≤◌, length};
ghost use Rattle.std.specs.List.{slice_get, flat_map};
ghost use Rattle.book.specs.Answers.{part_of};
ghost use Rattle.form.specs.Forms.{book_form, contents_form, entry_form, part_form};
ghost use Rattle.wire.specs.Writes.{parts_in, shown};

use crate::book_entry::BookEntry;
use book::entry::EntryCell;
use book::interface::Book;
use leaf::kind::WireLeaf;

// How many bytes a cell is written as.
fn size_of_cell<L: WireLeaf>(cell: &EntryCell<L>) -> usize
    ensures value { result ≡ length (part_form L.WireLeaf.written (part_of cell.now)) }
    ensures small { result ≤ 260 }
{
    match cell {
        EntryCell::Variable => 3,
        EntryCell::Leaf(_) => 3 + L::width(),
        EntryCell::Node(node) => 5 + node.args.len as usize,
    }
}

impl<L: WireLeaf, B: Book<L>> BookEntry<'_, L, B> {
    // How many bytes the cells are written as.
    fn size_of_cells(&self) -> usize
        ensures value { result ≡ length (flat_map (part_form L.WireLeaf.written) (parts_in (slice_get (B.Book.entries self.now.book.now) self.now.index))) }
        ensures small { result ≤ 16640 }
    {
        // A book is asked for its cells by number. Their sizes are added up by a loop, here and below, since a `sum` would
        // have to be told beforehand that they add up to less than a word holds.
        let mut size = 0;
        for j in 0..self.outline.cells {
            let cell = self.book.cell(self.index, j).unwrap();
            size += size_of_cell::<L>(&cell);
        }
        size
    }

    // How many bytes the entry holds: its cells and its goals.
    pub fn size_of_contents(&self) -> usize
        ensures value { result ≡ length (shown (contents_form L.WireLeaf.written) (slice_get (B.Book.entries self.now.book.now) self.now.index)) }
        ensures small { result ≤ 16652 }
    {
        self.size_of_cells() + 4 + self.outline.goals
    }

    // How many bytes the entry is written as.
    fn size(&self) -> usize
        ensures value { result ≡ length (shown (entry_form L.WireLeaf.written) (slice_get (B.Book.entries self.now.book.now) self.now.index)) }
        ensures small { result ≤ 16655 }
    {
        3 + self.size_of_contents()
    }
}

// How many bytes a book is written as.
pub(crate) fn size_of_book<L: WireLeaf, B: Book<L>>(book: &B) -> usize
    ensures { result ≡ length (book_form L.WireLeaf.written (B.Book.entries book.now)) }
{
    let mut size = 0;
    for i in 0..book.len() {
        let entry = BookEntry::<L, B>::of(book, i).unwrap();
        size += entry.size();
    }
    size
}
