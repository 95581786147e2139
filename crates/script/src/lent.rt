// The lengths of the lists that calls are lent.
ghost use Rattle.std.specs.Prelude.{◌≡◌, ◌*◌, min};

use slate::limits::{MOST_CELLS, WORK_PER_CELL};

// The frames that a call is lent at first.
const FIRST_FRAMES: usize = 4096;

// The length of the work list and that of the frames.
#[derive(Clone, Copy, PartialEq, Eq, Debug)]
pub struct Lent {
    pub work: usize,
    pub frames: usize,
}

impl Lent {
    // What is lent at first: a work list that suffices for a slate of so many cells, and 4,096 frames.
    pub fn first(cells: usize) -> Lent
        ensures { (result.work ≡ 9 * min cells 2048) × (result.frames ≡ 4096) }
    {
        Lent {
            work: WORK_PER_CELL * cells.min(MOST_CELLS),
            frames: FIRST_FRAMES,
        }
    }
}
