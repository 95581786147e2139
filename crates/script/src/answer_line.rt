// The line that is printed for an answer, without a line feed.
ghost use Rattle.std.specs.Prelude.{◌≡◌, IfOk, string_bytes};
ghost use Rattle.calls.specs.Answers.{answer_of};
ghost use Rattle.calls.specs.AnswerLines.{line_of_answer};

use calls::answer::Answer;
use std::alloc::{AllocError, Global};

// The line of an answer.
pub fn answer_line(heap: Global, answer: &Answer) -> Result<String, AllocError>
    ensures { IfOk result (λ s. string_bytes s ≡ line_of_answer (answer_of answer.now)) }
{
    let line = answer.to_string(heap)?;
    match answer {
        // growing has left up to as much room again, which the line of a record would keep
        Answer::Granted { .. } => String::from_str(heap, line.as_str()),
        _ => Ok(line),
    }
}
