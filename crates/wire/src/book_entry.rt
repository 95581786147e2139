// An entry of a book that is to be written.
ghost use Rattle.std.specs.Prelude.{◌≡◌, Some, None, MatchOption};
ghost use Rattle.std.specs.List.{slice_get};
ghost use Rattle.book.specs.Answers.{outline_at};

use book::entry::Outline;
use book::interface::Book;
use leaf::kind::Leaf;
use std::marker::PhantomData;

// An entry that is there: its book, its number in it, and its outline.
#[derive(Drop)]
pub struct BookEntry<'a, L: Leaf, B: Book<L>> {
    pub book: &'a B,
    pub index: usize,
    pub outline: Outline,
    leaf: PhantomData<L>,
    ghost there: { Some outline ≡ outline_at (B.Book.entries book.now) index },
}

impl<'a, L: Leaf, B: Book<L>> BookEntry<'a, L, B> {
    pub fn of(book: &'a B, index: usize) -> Option<BookEntry<'a, L, B>>
        ensures { MatchOption result (slice_get (B.Book.entries book.now) index ≡ None) (λ e. (e.book.now ≡ book.now) × (e.index ≡ index)) }
    {
        let outline = book.outline(index)?;
        Some(BookEntry {
            book,
            index,
            outline,
            leaf: PhantomData,
        })
    }
}
