// Where the reader stands in a book, and within an entry.
ghost use Rattle.std.specs.Prelude.{◌+◌, ◌≤◌, length};

use crate::spot::Spot;
use arrayvec::ArrayVec;

// The entries of a book that are still to be read: their bytes, and where they stand.
#[derive(Drop)]
pub struct Entries<'a> {
    pub rest: &'a [u8],
    pub spot: Spot,
    ghost fits: { spot.place + length rest.now ≤ 65535 },
    ghost counted: { spot.«entry» ≤ spot.place },
}

// The fields of an entry that are still to be read: their bytes, where they stand, and which of the cells before them are nodes.
// It goes on by other tests, which need the nodes, and with other faults than a row of entries does, so the two are no one reader.
#[derive(Drop)]
pub struct Fields<'a> {
    pub rest: &'a [u8],
    pub spot: Spot,
    pub nodes: ArrayVec<bool, 64>,
    ghost fits: { spot.place + length rest.now ≤ 65535 },
}
