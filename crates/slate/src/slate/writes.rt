// Making a slate, wiping it, and writing into it.
ghost use Rattle.std.specs.Prelude.{◌≡◌, ◌≤◌, length, take, vec_len};
ghost use Rattle.theory.specs.Calls.{write_open, write_leaf, write_node};
ghost use Rattle.unify.specs.Writing.{Writable};
ghost use Rattle.cells.specs.Cells.{content_of, Counted};
ghost use Rattle.slate.specs.Slates.{in_use, supplied, Wiped, Kept, CarriesOn, wrote_or, Written};

use crate::input::all_in_use;
use crate::limits::{MOST_ARGUMENTS, MOST_CELLS};
use crate::refusal::Refusal;
use crate::slate::Slate;
use cells::cell::{Cell, Content};
use leaf::kind::Leaf;

// The arguments of a node in the first of four places.
fn packed(args: &[u16]) -> [u16; 4]
    requires { length args.now ≤ 4 }
    ensures is { take (length args.now) result ≡ args.now }
    ensures four { length result ≡ 4 }
{
    let mut places = [0; 4];
    places[..args.len()].copy_from_slice(args);
    places
}

impl<L: Leaf> Slate<L> {
    // A wiped slate on the supplied cells.
    #[tactic(auto, using(crate::proofs::Next::none_sound, theory::proofs::CarriedSittings::wiped))]
    pub fn new(cells: Vec<Cell<L>>) -> Slate<L>
        ensures wiped { Wiped result }
        ensures as_many { supplied result ≡ vec_len cells }
    {
        Slate { cells, used: 0 }
    }

    // Puts every cell out of use.
    #[tactic(auto, using(crate::proofs::Next::none_sound, theory::proofs::CarriedSittings::wiped))]
    pub fn wipe(&mut self)
        ensures wiped { Wiped self.new }
        ensures as_many { supplied self.new ≡ supplied self.old }
    {
        self.used = 0;
    }

    // Writes into the next cell, if one is free.
    fn write(&mut self, content: Content<L>) -> Result<u16, Refusal>
        requires counted { Counted content }
        requires writable { Writable (in_use self.old) (content_of content) }
        ensures { Written self.old self.new (content_of content) result }
    {
        let used = self.used;
        if self.cells.len().min(MOST_CELLS) <= used {
            return Err(Refusal::NoCell);
        }
        self.cells[used] = content.into();
        self.used = used + 1;
        Ok(used as u16)
    }

    // Writes an open cell, and returns its number.
    pub fn open(&mut self) -> Result<u16, Refusal>
        ensures kept { Kept self.old self.new write_open (wrote_or result) }
        ensures carries { CarriesOn self.old self.new write_open (wrote_or result) }
    {
        self.write(Content::Open)
    }

    // Writes a leaf, and returns its number.
    pub fn leaf(&mut self, value: L) -> Result<u16, Refusal>
        ensures kept { Kept self.old self.new (write_leaf value) (wrote_or result) }
        ensures carries { CarriesOn self.old self.new (write_leaf value) (wrote_or result) }
    {
        self.write(Content::Leaf(value))
    }

    // Writes a node over at most four cells in use, and returns its number.
    pub fn node(&mut self, symbol: u16, args: &[u16]) -> Result<u16, Refusal>
        ensures kept { Kept self.old self.new
            (write_node symbol args.now) (wrote_or result) }
        ensures carries { CarriesOn self.old self.new
            (write_node symbol args.now) (wrote_or result) }
    {
        if args.len() > MOST_ARGUMENTS {
            return Err(Refusal::TooManyArguments);
        }
        all_in_use(self.used, args)?;
        let arguments = packed(args);
        let count = args.len() as u8;
        self.write(Content::Node {
            symbol,
            arguments,
            count,
        })
    }
}
