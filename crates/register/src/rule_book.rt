// The register's rules as the bytes of a book.
ghost use Rattle.std.specs.Prelude.{◌≡◌, IfOk, None};
ghost use Rattle.leaf.specs.AccessionNumbers.{number_of};
ghost use Rattle.form.specs.Meanings.{meaning};

use crate::rules::rules;
use crate::writing::{WritingError, form_bytes};
use book::table_book::TableBook;
use leaf::accession_number::AccessionNumber;
use std::alloc::Global;
use wire::byte_book::ByteBook;

// The bytes of the book of rules. They have no fault.
pub fn register_bytes(heap: Global) -> Result<Vec<u8>, WritingError>
    ensures { IfOk result (λ v. (meaning 4 number_of (v.items)).first_fault ≡ None) }
{
    let rules = rules(heap)?;
    let book = TableBook::<AccessionNumber>::new(rules.rows.as_slice(), rules.cells.as_slice());
    form_bytes::<AccessionNumber, TableBook<AccessionNumber>>(heap, &book)
}

// The book that the bytes are read as. It has no fault.
pub fn register_book(heap: Global) -> Result<ByteBook<AccessionNumber>, WritingError>
    ensures { IfOk result (λ b. b.fault ≡ None) }
{
    let bytes = register_bytes(heap)?;
    Ok(ByteBook::<AccessionNumber>::open(heap, bytes.as_slice())?)
}
