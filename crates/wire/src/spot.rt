// Where the reader stands in a book, and the faults that it finds there.
ghost use Rattle.std.specs.Prelude.{◌≡◌};
ghost use Rattle.form.specs.Meanings.{inner_fault, row_fault};

use form::fault::{Cause, Fault, Layer};

// The place of a byte in the book, and how many good entries come before it.
#[derive(Clone, Copy)]
pub struct Spot {
    pub place: usize,
    pub entry: usize,
}

impl Spot {
    // A fault within an entry: in a leaf's bytes, or in a field.
    pub fn inside(self, cause: Cause) -> Fault
        ensures { result ≡ inner_fault cause self.place self.«entry» }
    {
        let layer = match cause {
            Cause::WrongLeaf => Layer::Leaf,
            _ => Layer::Entry,
        };
        self.fault(cause, layer)
    }

    // A fault at a field of the book's row.
    pub fn in_row(self, cause: Cause) -> Fault
        ensures { result ≡ row_fault cause self.place self.«entry» }
    {
        self.fault(cause, Layer::Book)
    }

    // A fault of that layer.
    fn fault(self, cause: Cause, layer: Layer) -> Fault
        ensures { result ≡ record { cause = cause; place = self.place; «entry» = self.«entry»; layer = layer } }
    {
        Fault {
            cause,
            place: self.place,
            entry: self.entry,
            layer,
        }
    }
}
