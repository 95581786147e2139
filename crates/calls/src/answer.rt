ghost use Rattle.std.specs.Prelude.{Some};
ghost use Rattle.calls.specs.Answers.{answer_of};
ghost use Rattle.calls.specs.Steps.{steps_of};
ghost use Rattle.calls.specs.AnswerLines.{line_of_answer, text_of_steps};

use crate::step::Step;
use slate::refusal::Refusal;
use std::fmt;

// What a call answers. The count is that of a search's tries.
#[derive(PartialEq, Eq, Debug, Drop)]
pub enum Answer {
    Wrote { cell: u16 },
    Accepted,
    Same,
    Different,
    Granted { count: u32, steps: Vec<Step> },
    Failed { count: u32 },
    Passed,
    Refused(Refusal),
}

// The line of the answer, without a line feed.
impl fmt::Display for Answer {
    ghost output = { λ a. Some (line_of_answer (answer_of a)) };

    fn fmt<W: fmt::Write>(&self, f: &mut fmt::Formatter<W>) -> fmt::Result {
        match self {
            Answer::Wrote { cell } => write!(f, "cell {cell}"),
            Answer::Accepted => f.write_str("accepted"),
            Answer::Same => f.write_str("equal"),
            Answer::Different => f.write_str("different"),
            Answer::Granted { count, steps } => {
                write!(f, "granted {count} steps{}", Record(steps.as_slice()))
            }
            Answer::Failed { count } => write!(f, "failed {count}"),
            Answer::Passed => f.write_str("passed"),
            Answer::Refused(refusal) => write!(f, "refused {refusal}"),
        }
    }
}

// The steps of a record, printed each behind a space.
#[derive(Drop)]
struct Record<'a>(&'a [Step]);

impl fmt::Display for Record<'_> {
    ghost output = { λ r. Some (text_of_steps (steps_of r.0.now)) };

    fn fmt<W: fmt::Write>(&self, f: &mut fmt::Formatter<W>) -> fmt::Result {
        for step in self.0 {
            write!(f, " {step}")?;
        }
        Ok(())
    }
}
