// The lines of a listing.
ghost use Rattle.std.specs.Prelude.{◌≡◌, IfOk, string_bytes};
ghost use Rattle.book.specs.Answers.{kind_of};
ghost use Rattle.wire.specs.Listings.{last_line, line_of};

use book::entry::Outline;
use form::fault::Fault;
use std::alloc::{AllocError, Global};

// The line of one entry.
pub fn entry_text(heap: Global, number: usize, outline: &Outline) -> Result<String, AllocError>
    ensures { IfOk result (λ s. string_bytes s ≡ line_of number (kind_of outline.now.kind) outline.now.cells outline.now.goals) }
{
    let kind = outline.kind;
    let cells = outline.cells;
    let goals = outline.goals;
    format!(in heap; "{number} {kind} {cells} {goals}\n")
}

// The last line: the number of entries, or the fault that ends them.
pub fn last_text(heap: Global, count: usize, fault: Option<Fault>) -> Result<String, AllocError>
    ensures { IfOk result (λ s. string_bytes s ≡ last_line count fault) }
{
    match fault {
        None => format!(in heap; "entries {count}\n"),
        Some(fault) => format!(in heap; "{fault}\n"),
    }
}
