// The steps that stand, and taking one more: the goal is equated with an entry's head or with an earlier goal, and the
// next goal is found.
ghost use Rattle.std.specs.Prelude.{◌≡◌, ◌<◌, ◌≤◌, false, length, Some};
ghost use Rattle.frames.specs.Goals.{Pending, NextGoal};
ghost use Rattle.frames.specs.Tries.{Named, cursor_after};
ghost use Rattle.solver.specs.Steps.{size_at, TryableStep, TriedStep, Takeable, Stepped};
ghost use Rattle.solver.specs.Derivations.{standing_of, Continues, StoreAlone};

use attempts::extent::Extent;
use attempts::store::Store;
use book::interface::Book;
use calls::step::Step;
use frames::frame::{Cursor, Frame, Goal};
use frames::goals::next_goal;
use frames::mode::closes_loop;
use frames::tries::after;
use leaf::kind::Leaf;

// The book and the goals, the store and the frames that were lent, how many steps stand, and the goal that is to be
// taken next, if any. The frames are supplied, so how many of them stand is beside them. What holds of all this stands in
// clauses, since a fact beside loans is not kept by a type.
#[derive(Drop)]
pub struct Derivation<'a, 's, B, L> {
    pub book: &'a B,
    pub goals: &'a [u16],
    pub store: &'a mut Store<'s, L>,
    pub frames: &'a mut [Frame],
    pub depth: usize,
    pub goal: Option<Goal>,
}

impl<L: Leaf, B: Book<L>> Derivation<'_, '_, B, L> {
    // How many new cells a step needs: those of its entry, or none where it closes a loop.
    pub(crate) fn cells_needed(&self, step: Step) -> usize
        ensures { result ≡ size_at (B.Book.entries self.now.book.now) step }
    {
        if closes_loop(step) {
            return 0;
        }
        let outline = self.book.outline(step.number as usize);
        outline.map_or(0, |outline| outline.cells)
    }

    // The first goal that is left: of those of the latest step, or else of the steps before and of the list.
    pub(crate) fn next_goal(&self, latest: Option<u16>) -> Option<Goal>
        requires { Pending (B.Book.entries self.now.book.now) self.now.goals.now self.now.«frames».now latest 0 }
        ensures { NextGoal (B.Book.entries self.now.book.now) self.now.goals.now self.now.«frames».now latest 0 result }
    {
        next_goal(self.book, self.goals, self.frames, latest, 0)
    }

    // Which tries are left of a step's goal after the step.
    pub(crate) fn tries_after(&self, step: Step) -> Cursor
        requires { Named (length self.now.«frames».now) step }
        ensures { result ≡ cursor_after self.now.«frames».now step }
    {
        after(self.frames, step)
    }

    // Tries a step for a goal.
    fn try_step(&mut self, goal: u16, step: Step) -> bool
        requires { TryableStep (B.Book.entries self.old.book.now) self.old.store.now.«cells».now
            self.old.store.now.work.now self.old.«frames».now self.old.store.now.extent goal step }
        ensures is { TriedStep L.PartialEq.eq (B.Book.entries self.old.book.now) self.old.«frames».now goal step
            result self.old.store.now.«cells».now self.old.store.now.work.now self.old.store.now.extent
            self.new.store.now.«cells».now self.new.store.now.work.now self.new.store.now.extent }
        ensures falls { result ≡ false → self.new.store.now.extent ≡ self.old.store.now.extent }
        ensures alone { StoreAlone self.old self.new }
    {
        if closes_loop(step) {
            let earlier = self.frames[step.number as usize].goal.cell;
            return self.store.try_loop(goal, earlier);
        }
        // the try changes the store, which a closure would have to hold, so it is a match
        match self.book.outline(step.number as usize) {
            Some(outline) => self.store.try_entry(self.book, step.number, outline, goal),
            None => false,
        }
    }

    // Takes a step, if it can stand: its frame is put behind those that stand, and the next goal is found.
    pub(crate) fn take_step(&mut self, goal: Goal, step: Step) -> bool
        requires { Takeable (B.Book.entries self.old.book.now) self.old.goals.now
            self.old.store.now.«cells».now self.old.store.now.work.now self.old.«frames».now
            (standing_of self.old) goal step }
        ensures is { Stepped L.PartialEq.eq (B.Book.entries self.old.book.now) self.old.goals.now goal step result
            self.old.store.now.«cells».now self.old.store.now.work.now self.old.«frames».now (standing_of self.old)
            self.new.store.now.«cells».now self.new.store.now.work.now self.new.«frames».now (standing_of self.new) }
        ensures same { Continues self.old self.new }
    {
        let depth = self.depth;
        let Extent { used, trail } = self.store.extent;
        if !self.try_step(goal.cell, step) {
            return false;
        }
        self.frames[depth] = Frame {
            goal,
            step,
            used: used as u16,
            trail: trail as u16,
        };
        self.depth = depth + 1;
        self.goal = self.next_goal(Some(depth as u16));
        true
    }
}
