// Replaying a record, step by step.
ghost use Rattle.std.specs.Prelude.{◌-◌, length, take};
ghost use Rattle.searching.specs.Checking.{checks};
ghost use Rattle.cells.specs.Cells.{cells_of};
ghost use Rattle.calls.specs.Steps.{steps_of};
ghost use Rattle.solver.specs.Runs.{Ready, Begun};
ghost use Rattle.solver.specs.Checking.{passes_or, bounds_of, Replays};
ghost use Rattle.solver.specs.Derivations.{standing_of, Continues};

use crate::derivation::Derivation;
use book::interface::Book;
use calls::step::Step;
use leaf::kind::Leaf;
use slate::refusal::{Refusal, Rule};

impl<L: Leaf, B: Book<L>> Derivation<'_, '_, B, L> {
    // Replays a record from its beginning: passed, or the first bad step and the rule that it breaks, or that an
    // instance does not fit. So many of the cells are the slate's.
    pub(crate) fn replay(&mut self, room: usize, record: &[Step]) -> Result<(), Refusal>
        requires ready { Ready self.old.goals.now
            (bounds_of (length «record».now) room self.old.store.now.extent.used)
            self.old.store.now.«cells».now self.old.store.now.work.now self.old.«frames».now }
        requires begun { Begun (B.Book.entries self.old.book.now) self.old.goals.now self.old.«frames».now
            self.old.store.now.extent.used (standing_of self.old) }
        ensures replays { Replays L.PartialEq.eq (B.Book.entries self.old.book.now) self.old.goals.now
            (bounds_of (length «record».now) room self.old.store.now.extent.used)
            (cells_of (take self.old.store.now.extent.used self.old.store.now.«cells».now))
            (checks L.PartialEq.eq (B.Book.entries self.old.book.now) self.old.store.now.extent.used
            (room - self.old.store.now.extent.used)
            (cells_of (take self.old.store.now.extent.used self.old.store.now.«cells».now))
            self.old.goals.now (steps_of «record».now))
            self.new.store.now.«cells».now self.new.store.now.work.now self.new.«frames».now
            (standing_of self.new) (passes_or result) }
        ensures same { Continues self.old self.new }
    {
        for (i, step) in record.iter().enumerate() {
            let here = i as u16;
            let Some(goal) = self.goal else {
                return Err(Refusal::Unlawful {
                    step: here,
                    rule: Rule::GoalAndMode.number(),
                });
            };
            if let Some(rule) = self.broken_rule(goal, *step) {
                return Err(Refusal::Unlawful {
                    step: here,
                    rule: rule.number(),
                });
            }
            if room - self.store.extent.used < self.cells_needed(*step) {
                return Err(Refusal::NoCell);
            }
            if !self.take_step(goal, *step) {
                return Err(Refusal::Unlawful {
                    step: here,
                    rule: Rule::Reading.number(),
                });
            }
        }
        match self.goal {
            None => Ok(()),
            Some(_) => Err(Refusal::Unlawful {
                step: record.len() as u16,
                rule: Rule::NonePending.number(),
            }),
        }
    }
}
