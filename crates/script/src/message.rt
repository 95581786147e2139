// What is said of a file that cannot be used, as whole lines.
ghost use Rattle.std.specs.Prelude.{◌≡◌, ◌++◌, IfOk, Some, string_bytes, codes};
ghost use Rattle.wire.specs.Listings.{last_line};
ghost use Rattle.script.specs.Messages.{script_says};

use crate::fault::ScriptError;
use form::fault::Fault;
use std::alloc::{AllocError, Global};

// The first fault of the bytes of a book, behind the name of the file.
pub fn book_message(heap: Global, file: &str, fault: Fault) -> Result<String, AllocError>
    ensures { IfOk result (λ s. string_bytes s ≡ file.now ++ (codes ": " ++ last_line 0 (Some fault))) }
{
    format!(in heap; "{file}: {fault}\n")
}

// Why a script cannot be read, behind the name of the file. One function for both would be told what each prints, and be no shorter.
pub fn script_message(heap: Global, file: &str, error: ScriptError) -> Result<String, AllocError>
    ensures { IfOk result (λ s. string_bytes s ≡ script_says file.now error) }
{
    format!(in heap; "{file}: {error}\n")
}
