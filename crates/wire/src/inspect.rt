ghost use Rattle.std.specs.Prelude.{◌≡◌, Some, None, MatchResult};
ghost use Rattle.form.specs.Meanings.{meaning};

use crate::cursor::Entries;
use form::fault::Fault;
use leaf::kind::WireLeaf;

// A book has at most so many bytes.
pub const MOST_BYTES: usize = 65535;

// Reads the entries of a book, up to the first fault.
fn read_all<L: WireLeaf>(bytes: &[u8]) -> Result<(), Fault>
    ensures { MatchResult result (λ _. (meaning L.WireLeaf.wide L.WireLeaf.reading bytes.now).first_fault ≡ None) (λ f. (meaning L.WireLeaf.wide L.WireLeaf.reading bytes.now).first_fault ≡ Some f) }
{
    let mut entries = Entries::of(bytes)?;
    while entries.next::<L>()?.is_some() {}
    Ok(())
}

// The first fault of the bytes of a book, or none.
pub fn inspect<L: WireLeaf>(bytes: &[u8]) -> Option<Fault>
    ensures { result ≡ (meaning L.WireLeaf.wide L.WireLeaf.reading bytes.now).first_fault }
{
    read_all::<L>(bytes).err()
}
