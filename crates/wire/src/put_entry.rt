// An entry of a book, written into the first bytes of an output.
ghost use Rattle.std.specs.Prelude.{◌≡◌, ◌+◌, ◌≤◌, ◌∷◌, length};
ghost use Rattle.std.specs.List.{slice_get, flat_map};
ghost use Rattle.leaf.specs.Outputs.{Fills};
ghost use Rattle.form.specs.Fields.{field_form};
ghost use Rattle.form.specs.Forms.{entry_form, entry_tag, part_form};
ghost use Rattle.book.specs.Answers.{kind_of};
ghost use Rattle.wire.specs.Writes.{body_in, parts_in, shown};

use crate::book_entry::BookEntry;
use crate::put::{put_bytes, put_cell, put_header};
use crate::tag::Tag;
use book::interface::Book;
use leaf::kind::WireLeaf;

impl<L: WireLeaf, B: Book<L>> BookEntry<'_, L, B> {
    // Writes the entry.
    pub fn put(&self, out: &mut [u8]) -> usize
        requires { length (shown (entry_form L.WireLeaf.written) (slice_get (B.Book.entries self.now.book.now) self.now.index)) ≤ length out.old }
        ensures { Fills out.old out.new (shown (entry_form L.WireLeaf.written) (slice_get (B.Book.entries self.now.book.now) self.now.index)) result }
    {
        let start = put_header(Tag::from(self.outline.kind), self.size_of_contents(), out);
        let at = start + self.put_cells(&mut out[start..]);
        at + self.put_goals(&mut out[at..])
    }

    // Writes the cells.
    fn put_cells(&self, out: &mut [u8]) -> usize
        requires { length (flat_map (part_form L.WireLeaf.written) (parts_in (slice_get (B.Book.entries self.now.book.now) self.now.index))) ≤ length out.old }
        ensures { Fills out.old out.new (flat_map (part_form L.WireLeaf.written) (parts_in (slice_get (B.Book.entries self.now.book.now) self.now.index))) result }
    {
        // a book is asked for its cells by number
        let mut at = 0;
        for j in 0..self.outline.cells {
            let cell = self.book.cell(self.index, j).unwrap();
            at += put_cell::<L>(&cell, &mut out[at..]);
        }
        at
    }

    // Writes the field of the goals, the head first.
    fn put_goals(&self, out: &mut [u8]) -> usize
        requires { 4 + self.now.outline.goals ≤ length out.old }
        ensures { Fills out.old out.new (field_form 19 (self.now.outline.head ∷ body_in (slice_get (B.Book.entries self.now.book.now) self.now.index))) result }
    {
        let start = put_header(Tag::Goals, 1 + self.outline.goals, out);
        let at = start + put_bytes(&[self.outline.head], &mut out[start..]);
        at + self.put_body(&mut out[at..])
    }

    // Writes the body goals, a byte each.
    fn put_body(&self, out: &mut [u8]) -> usize
        requires { self.now.outline.goals ≤ length out.old }
        ensures { Fills out.old out.new (body_in (slice_get (B.Book.entries self.now.book.now) self.now.index)) result }
    {
        // and for its goals
        let mut at = 0;
        for k in 0..self.outline.goals {
            let goal = self.book.goal(self.index, k).unwrap();
            at += put_bytes(&[goal], &mut out[at..]);
        }
        at
    }
}
