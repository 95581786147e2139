// Solve: searches for a record of the goals.
ghost use Rattle.std.specs.Prelude.{length};
ghost use Rattle.theory.specs.Calls.{solve as solving};
ghost use Rattle.slate.specs.Slates.{KeptOver};
ghost use Rattle.solver.specs.Solver.{solved_or, RecordLeft};

use crate::bounds::Bounds;
use crate::conclude::conclude;
use crate::input::admit;
use crate::limits::{MOST_GOALS, MOST_STEPS};
use crate::run::run;
use crate::solved::Solved;
use book::interface::Book;
use calls::step::Step;
use frames::frame::Frame;
use leaf::kind::Leaf;
use slate::limits::MOST_CELLS;
use slate::refusal::Refusal;
use slate::slate::Slate;

// Searches for a record of the goals, with so many tries. A grant writes the record into the first steps of the record
// list, and leaves the bindings on the slate and each instance in the next cells.
// The lists stay parameters, and no struct, since a sitting lends parts of them to each call (see `make_solve`).
pub fn solve<L: Leaf, B: Book<L>>(
    slate: &mut Slate<L>,
    book: &B,
    goals: &[u16],
    budget: u32,
    steps: &mut [Step],
    work: &mut [u16],
    frames: &mut [Frame],
) -> Result<Solved, Refusal>
    ensures kept { KeptOver (B.Book.entries book.now) slate.old slate.new
        (solving goals.now budget (length steps.old) (length work.old)
        (length frames.old)) (solved_or steps.new result) }
    ensures record_left { RecordLeft steps.old steps.new result }
{
    if goals.len() > MOST_GOALS {
        return Err(Refusal::TooLong);
    }
    let served = steps.len().min(MOST_STEPS);
    admit(
        slate.cells.as_slice(),
        slate.used,
        goals,
        work.len(),
        frames.len(),
        served,
    )?;
    let bounds = Bounds {
        budget,
        steps: served,
        cells: slate.cells.len().min(MOST_CELLS),
        first: slate.used,
    };
    let end = run(
        book,
        goals,
        bounds,
        slate.cells.as_mut_slice(),
        work,
        frames,
    );
    slate.used = end.used;
    conclude(end, steps, frames)
}
