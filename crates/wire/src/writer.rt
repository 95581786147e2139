ghost use Rattle.std.specs.Prelude.{◌≡◌, ◌≤◌, length};
ghost use Rattle.leaf.specs.Outputs.{Fills};
ghost use Rattle.form.specs.Forms.{book_form};
ghost use Rattle.wire.specs.Writes.{WriteMeans, refusal_number};

use crate::book_entry::BookEntry;
use crate::inspect::MOST_BYTES;
use crate::sizes::size_of_book;
use book::interface::Book;
use leaf::kind::WireLeaf;

// Why a book was not written.
#[derive(Clone, Copy, PartialEq, Eq, Debug)]
pub enum WriteRefusal {
    // its form has more than 65,535 bytes
    TooMuch = 13,
    // the output has fewer bytes than the form
    ShortOutput,
}

impl WriteRefusal {
    // The number that stands for the refusal.
    pub fn number(self) -> u8
        ensures { result ≡ refusal_number self }
    {
        self as u8
    }
}

// Writes the entries one after another, each into what is left of the output.
// The loops over entries, cells and goals stay three: one over a closure would have to say what each call writes, which is longer.
fn put_book<L: WireLeaf, B: Book<L>>(book: &B, out: &mut [u8]) -> usize
    requires { length (book_form L.WireLeaf.written (B.Book.entries book.now)) ≤ length out.old }
    ensures { Fills out.old out.new (book_form L.WireLeaf.written (B.Book.entries book.now)) result }
{
    let mut at = 0;
    for i in 0..book.len() {
        let entry = BookEntry::<L, B>::of(book, i).unwrap();
        at += entry.put(&mut out[at..]);
    }
    at
}

// Writes the form of the book into the first bytes of the output and says how many they are.
// A form of more than 65,535 bytes is refused, and then one that the output has no room for; the output is then unaltered.
pub fn write<L: WireLeaf, B: Book<L>>(book: &B, out: &mut [u8]) -> Result<usize, WriteRefusal>
    ensures { WriteMeans (book_form L.WireLeaf.written (B.Book.entries book.now)) out.old out.new result }
{
    let size = size_of_book::<L, B>(book);
    if size > MOST_BYTES {
        return Err(WriteRefusal::TooMuch);
    }
    if out.len() < size {
        return Err(WriteRefusal::ShortOutput);
    }
    Ok(put_book::<L, B>(book, out))
}
