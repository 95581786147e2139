// The listing of a book.
ghost use Rattle.std.specs.Prelude.{◌≡◌, IfOk, string_bytes};
ghost use Rattle.form.specs.Meanings.{meaning};
ghost use Rattle.wire.specs.Listings.{ListMeans, listing_of};

use crate::byte_book::ByteBook;
use crate::lines::{entry_text, last_text};
use crate::list_refusal::ListRefusal;
use book::interface::Book;
use form::fault::Fault;
use leaf::kind::{Leaf, WireLeaf};
use leaf::output::put;
use std::alloc::{AllocError, Global};

// The text of a book's listing: a line for each entry, then their number, or the fault that ends them.
pub fn list_text<L: Leaf, B: Book<L>>(
    heap: Global,
    book: &B,
    fault: Option<Fault>,
) -> Result<String, AllocError>
    ensures { IfOk result (λ s. string_bytes s ≡ listing_of (B.Book.entries book.now) fault) }
{
    let mut text = String::new(heap);
    let count = book.len();
    // a book is asked for its entries by number
    for number in 0..count {
        let outline = book.outline(number).unwrap();
        let line = entry_text(heap, number, &outline)?;
        text.push_str(line.as_str())?;
    }
    let line = last_text(heap, count, fault)?;
    text.push_str(line.as_str())?;
    Ok(text)
}

// The text of the listing of the bytes of a book.
fn bytes_text<L: WireLeaf>(heap: Global, bytes: &[u8]) -> Result<String, AllocError>
    ensures { IfOk result (λ s. string_bytes s ≡ listing_of (meaning L.WireLeaf.wide L.WireLeaf.reading bytes.now).entries (meaning L.WireLeaf.wide L.WireLeaf.reading bytes.now).first_fault) }
{
    let book = ByteBook::<L>::open(heap, bytes)?;
    let fault = book.fault();
    list_text::<L, ByteBook<L>>(heap, &book, fault)
}

// Lists the bytes of a book into the first bytes of the output, and says how many they are.
pub fn list<L: WireLeaf>(heap: Global, bytes: &[u8], out: &mut [u8]) -> Result<usize, ListRefusal>
    ensures { ListMeans (listing_of (meaning L.WireLeaf.wide L.WireLeaf.reading bytes.now).entries (meaning L.WireLeaf.wide L.WireLeaf.reading bytes.now).first_fault) out.old out.new result }
{
    let text = bytes_text::<L>(heap, bytes)?;
    Ok(put(out, text.as_bytes())?)
}
