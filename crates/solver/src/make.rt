// Making one call of a sitting.
ghost use Rattle.std.specs.Prelude.{length};
ghost use Rattle.solver.specs.Sitting.{lent, Made};
ghost use Rattle.calls.specs.Steps.{steps_of};
ghost use Rattle.theory.specs.Calls.{solve as solving, check as checking};

use crate::answers::{answered, solved, wrote};
use crate::check::check;
use crate::solve::solve;
use book::interface::Book;
use calls::answer::Answer;
use calls::call::Call;
use calls::step::Step;
use frames::frame::Frame;
use leaf::kind::Leaf;
use slate::slate::Slate;
use std::alloc::{AllocError, Global};

// Solves, and collects the record of a grant.
// The lists stay three parameters: a struct that lends on parts of its lists in another was tried, and gets no proof.
fn make_solve<L: Leaf, B: Book<L>>(
    heap: Global,
    slate: &mut Slate<L>,
    book: &B,
    goals: &[u16],
    budget: u32,
    steps: &mut [Step],
    work: &mut [u16],
    frames: &mut [Frame],
) -> Result<Answer, AllocError>
    ensures { Made (B.Book.entries book.now) slate.old slate.new
        (solving goals.now budget (length steps.old) (length work.old)
        (length frames.old)) result }
{
    let result = solve(slate, book, goals, budget, steps, work, frames);
    solved(heap, result, steps)
}

// Makes a call, lent as much of each list as it asks for, but no more than there is.
pub(crate) fn make_call<L: Leaf, B: Book<L>>(
    heap: Global,
    slate: &mut Slate<L>,
    book: &B,
    call: &Call<L>,
    steps: &mut [Step],
    work: &mut [u16],
    frames: &mut [Frame],
) -> Result<Answer, AllocError>
    ensures { Made (B.Book.entries book.now) slate.old slate.new
        (lent (length steps.old) (length work.old) (length frames.old)
        call.now) result }
{
    match call {
        Call::Open => Ok(answered(slate.open(), wrote)),
        Call::Leaf(value) => Ok(answered(slate.leaf(*value), wrote)),
        Call::Node { symbol, args } => Ok(answered(slate.node(*symbol, args.as_slice()), wrote)),
        Call::Equate {
            left,
            right,
            work: n,
        } => {
            let room = (*n).min(work.len());
            let result = slate.equate(&mut work[0..room], *left, *right);
            Ok(answered(result, |()| Answer::Accepted))
        }
        Call::Compare {
            left,
            right,
            work: n,
        } => {
            let room = (*n).min(work.len());
            let result = slate.compare(&mut work[0..room], *left, *right);
            Ok(answered(
                result,
                |same| if same {
                    Answer::Same
                } else {
                    Answer::Different
                },
            ))
        }
        Call::Solve {
            goals,
            budget,
            room,
            work: n,
            frames: m,
        } => {
            let (k, n, m) = (
                (*room).min(steps.len()),
                (*n).min(work.len()),
                (*m).min(frames.len()),
            );
            let (steps, work, frames) = (&mut steps[0..k], &mut work[0..n], &mut frames[0..m]);
            make_solve(
                heap,
                slate,
                book,
                goals.as_slice(),
                *budget,
                steps,
                work,
                frames,
            )
        }
        Call::Check {
            goals,
            steps: record,
            work: n,
            frames: m,
        } => {
            let (n, m) = ((*n).min(work.len()), (*m).min(frames.len()));
            let (work, frames) = (&mut work[0..n], &mut frames[0..m]);
            let result = check(
                slate,
                book,
                goals.as_slice(),
                record.as_slice(),
                work,
                frames,
            );
            Ok(answered(result, |()| Answer::Passed))
        }
    }
}
