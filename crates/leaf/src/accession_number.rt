ghost use Rattle.std.specs.Prelude.{◌==◌};
ghost use Rattle.leaf.specs.AccessionNumbers.{number_bytes, number_of, never};
ghost use Rattle.std.proofs.Common.{rules};

use crate::kind::{Leaf, WireLeaf};
use crate::output::{TooShort, put};

// The number under which an archive registers a reel.
#[derive(Clone, Copy, PartialEq, Eq, Debug)]
pub struct AccessionNumber(pub u32);

impl Leaf for AccessionNumber {
    ghost decides = { Prim.search rules };
}

// Four bytes, the high byte first; every four bytes are a number.
impl WireLeaf for AccessionNumber {
    ghost wide = { 4 };

    ghost written = { number_bytes };

    ghost reading = { number_of };

    ghost refuses = { never };

    ghost narrow = { Prim.search rules };

    ghost even = { Prim.search rules };

    ghost rereads = { Prim.search rules };

    ghost rewrites = { Prim.search rules };

    ghost named = { Prim.search rules };

    fn width() -> usize {
        4
    }

    fn read(from: &[u8]) -> Option<AccessionNumber> {
        let bytes = from.try_into().ok()?;
        Some(AccessionNumber(u32::from_be_bytes(bytes)))
    }

    fn write(&self, out: &mut [u8]) -> Result<usize, TooShort> {
        put(out, &self.0.to_be_bytes())
    }
}
