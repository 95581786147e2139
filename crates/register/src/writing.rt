// Books written as bytes of their own.
ghost use Rattle.std.specs.Prelude.{◌≡◌, IfOk, None};
ghost use Rattle.form.specs.Meanings.{meaning};
ghost use Rattle.register.specs.declared.writing.WritingError.TheVariants as error;

use book::interface::Book;
use leaf::kind::WireLeaf;
use std::alloc::{AllocError, Global};
use wire::writer::{WriteRefusal, write};

// The most bytes that a book may take here.
const MOST_BYTES: usize = 512;

// Why a book has no bytes: it takes too many, or memory ran out.
#[derive(Clone, Copy, PartialEq, Eq, Debug)]
pub enum WritingError {
    TooLong,
    NoMemory,
}

impl From<AllocError> for WritingError {
    ghost from_gives = { λ _ r. r ≡ error.NoMemory };

    fn from(_e: AllocError) -> WritingError {
        WritingError::NoMemory
    }
}

impl From<WriteRefusal> for WritingError {
    ghost from_gives = { λ _ r. r ≡ error.TooLong };

    fn from(_e: WriteRefusal) -> WritingError {
        WritingError::TooLong
    }
}

// The form of a book. It means the book, and has no fault.
pub fn form_bytes<L: WireLeaf, B: Book<L>>(heap: Global, book: &B) -> Result<Vec<u8>, WritingError>
    ensures { IfOk result (λ v. meaning L.WireLeaf.wide L.WireLeaf.reading v.items ≡ record { entries = B.Book.entries book.now; first_fault = None }) }
{
    // into an array, so that nothing is allocated for a book that is refused, and no more than the form for another
    let mut output = [0; MOST_BYTES];
    let count = write::<L, B>(book, &mut output)?;
    Ok(Vec::from_slice(heap, &output[0..count])?)
}
