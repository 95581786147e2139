ghost use Rattle.leaf.specs.ShelfMarks.{mark_bytes, mark_of, no_letter};
ghost use Rattle.std.proofs.Common.{rules};
ghost use Rattle.leaf.specs.Marks.{mark_rewrites, marks_named};

use crate::kind::{Leaf, WireLeaf};
// The letter of a mark is named here too.
pub use crate::letter::Letter;
use crate::output::{TooShort, put};

// Where a reel stands: a letter for the shelf and a number on it.
#[derive(Clone, Copy, PartialEq, Eq, Debug)]
pub struct ShelfMark {
    pub letter: Letter,
    pub number: u16,
}

impl Leaf for ShelfMark {
    ghost decides = { Prim.search rules };
}

// The letter's code, then the number in two bytes, the high byte first; a first byte that is no letter's is refused.
impl WireLeaf for ShelfMark {
    ghost wide = { 3 };

    ghost written = { mark_bytes };

    ghost reading = { mark_of };

    ghost refuses = { no_letter };

    ghost narrow = { Prim.search rules };

    ghost even = { Prim.search rules };

    ghost rereads = { Prim.search rules };

    ghost rewrites = { mark_rewrites };

    ghost named = { marks_named };

    fn width() -> usize {
        3
    }

    fn read(from: &[u8]) -> Option<ShelfMark> {
        let [first, high, low] = from else {
            return None;
        };
        let letter = Letter::try_from(*first).ok()?;
        let number = u16::from_be_bytes([*high, *low]);
        Some(ShelfMark { letter, number })
    }

    fn write(&self, out: &mut [u8]) -> Result<usize, TooShort> {
        let [high, low] = self.number.to_be_bytes();
        put(out, &[u8::from(self.letter), high, low])
    }
}
