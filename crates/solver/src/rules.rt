// Which rule a step of a record breaks by its form.
ghost use Rattle.frames.specs.Tries.{Chained};
ghost use Rattle.solver.specs.Checking.{Tested};

use crate::derivation::Derivation;
use book::interface::Book;
use calls::step::Step;
use frames::frame::Goal;
use frames::mode::Mode;
use frames::tries::{is_clause, on_path};
use leaf::kind::Leaf;
use slate::refusal::Rule;

impl<L: Leaf, B: Book<L>> Derivation<'_, '_, B, L> {
    // The rule that a step breaks by its form, if any: that of its mode, or that it has one of the three modes.
    pub(crate) fn broken_rule(&self, goal: Goal, step: Step) -> Option<Rule>
        requires { Chained self.now.«frames».now goal.parent }
        ensures { Tested (B.Book.entries self.now.book.now) self.now.«frames».now goal step result }
    {
        let number = step.number as usize;
        match Mode::try_from(step.mode) {
            Ok(Mode::Clause) => {
                if goal.inner || !is_clause(self.book, number) {
                    return Some(Rule::ClauseForOuter);
                }
            }
            Ok(Mode::Loop) => {
                if goal.inner || !on_path(self.frames, goal.parent, step.number) {
                    return Some(Rule::LoopOfOuter);
                }
            }
            Ok(Mode::Entry) => {
                if !goal.inner || self.book.len() <= number {
                    return Some(Rule::EntryForInner);
                }
            }
            Err(_) => return Some(Rule::GoalAndMode),
        }
        None
    }
}
