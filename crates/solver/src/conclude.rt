// The answer of a search that has ended.
ghost use Rattle.std.specs.Prelude.{◌≡◌, ◌≤◌, ◌++◌, map, length, take};
ghost use Rattle.solver.specs.Solver.{steps_written, Concluded};

use crate::ending::{Ending, Finish};
use crate::solved::Solved;
use calls::step::Step;
use frames::frame::Frame;
use slate::refusal::Refusal;

// Writes the steps of the frames into the first steps of the record list.
fn write_record(steps: &mut [Step], frames: &[Frame])
    requires { length frames.now ≤ length steps.old }
    ensures { steps.new ≡ steps_written frames.now steps.old }
{
    // `iter_mut` beside the frames was tried, and got no proof.
    for (i, frame) in frames.iter().enumerate() {
        steps[i] = frame.step;
    }
}

// Gives the answer; the record is written only where it was found.
pub(crate) fn conclude(end: Finish, steps: &mut [Step], frames: &[Frame]) -> Result<Solved, Refusal>
    requires room { end.depth ≤ length steps.old }
    requires framed { end.depth ≤ length frames.now }
    ensures { Concluded end frames.now steps.old steps.new result }
{
    let count = end.count;
    match end.ending {
        Ok(()) => {
            write_record(steps, &frames[..end.depth]);
            Ok(Solved::Granted {
                count,
                steps: end.depth,
            })
        }
        Err(Ending::Failed) => Ok(Solved::Failed { count }),
        Err(Ending::Spent) => Err(Refusal::SpentAfter { count }),
        Err(Ending::Full) => Err(Refusal::FullAfter { count }),
        Err(Ending::Short) => Err(Refusal::NoCellAfter { count }),
    }
}
