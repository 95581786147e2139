ghost use Rattle.std.specs.Prelude.{Some};
ghost use Rattle.calls.specs.Steps.{step_of};
ghost use Rattle.calls.specs.AnswerLines.{word_of_step};

use std::fmt;

// One step of a record: mode 1 takes a clause, mode 2 closes a loop, mode 3 takes any entry. The number is an
// entry's, or, at mode 2, a step's. A caller may give any mode, which a rule then refuses, so the mode is a number.
#[derive(Clone, Copy, PartialEq, Eq, Debug, Default)]
pub struct Step {
    pub mode: u8,
    pub number: u16,
}

// The mode, a comma and the number, as scripts have them.
impl fmt::Display for Step {
    ghost output = { λ s. Some (word_of_step (step_of s)) };

    fn fmt<W: fmt::Write>(&self, f: &mut fmt::Formatter<W>) -> fmt::Result {
        write!(f, "{},{}", self.mode, self.number)
    }
}
