// The answers of single calls, as a sitting collects them.
ghost use Rattle.std.specs.Prelude.{◌≡◌, length, IfOk, MatchResult};
ghost use Rattle.std.specs.Result.{ForOk};
ghost use Rattle.calls.specs.declared.answer.Answer.TheVariants.{Wrote, Refused};
ghost use Rattle.calls.specs.Answers.{answer_of};
ghost use Rattle.solver.specs.Solver.{solved_or, RecordHolds};

use crate::solved::Solved;
use calls::answer::Answer;
use calls::step::Step;
use slate::refusal::Refusal;
use std::alloc::{AllocError, Global};

// The answer of a write.
pub(crate) fn wrote(cell: u16) -> Answer
    ensures { result ≡ Wrote cell }
{
    Answer::Wrote { cell }
}

// The answer of a call: that of what it gives, or that it is refused.
pub(crate) fn answered<T, F: FnOnce(T) -> Answer>(res: Result<T, Refusal>, given: F) -> Answer
    requires { ForOk res (λ x. F.pre given x) }
    ensures { MatchResult res (λ x. F.post given x result) (λ e. result ≡ Refused e) }
{
    res.map_or_else(Answer::Refused, given)
}

// The answer of a solve, with the record of a grant.
pub(crate) fn solved(
    heap: Global,
    res: Result<Solved, Refusal>,
    steps: &[Step],
) -> Result<Answer, AllocError>
    requires { RecordHolds (length steps.now) res }
    ensures { IfOk result (λ a. answer_of a ≡ solved_or steps.now res) }
{
    match res {
        Ok(Solved::Granted { count, steps: n }) => {
            let found = steps[0..n].to_vec(heap)?;
            Ok(Answer::Granted {
                count,
                steps: found,
            })
        }
        Ok(Solved::Failed { count }) => Ok(Answer::Failed { count }),
        Err(refusal) => Ok(Answer::Refused(refusal)),
    }
}
