// The search for a record, depth first over the first pending goal.
ghost use Rattle.std.specs.Prelude.{◌≡◌, take, Some, OnErr};
ghost use Rattle.cells.specs.Cells.{cells_of};
ghost use Rattle.solver.specs.Searching.{FirstTries, Facing, Exhausted};
ghost use Rattle.solver.specs.Runs.{Ready, Begun, Ran};
ghost use Rattle.solver.specs.Derivations.{standing_of, moment_of, origin_of, GoesOn, SearchRuns, SearchTurned, SearchEnded};

use crate::bounds::Bounds;
use crate::derivation::Derivation;
use crate::ending::{Ending, Finish};
use attempts::extent::Extent;
use book::interface::Book;
use calls::step::Step;
use frames::frame::{Cursor, Goal};
use frames::tries::next_try;
use leaf::kind::Leaf;

// A search: the steps that stand, its bounds, which tries of the goal are left, and how many tries were made.
#[derive(Drop)]
pub struct Search<'a, 'd, 's, B, L> {
    pub derivation: &'a mut Derivation<'d, 's, B, L>,
    pub bounds: Bounds,
    pub cursor: Cursor,
    pub count: u32,
}

// All tries of a goal: first the steps on its path, if it is an outer one, then the entries.
pub(crate) fn first_tries(goal: Option<Goal>) -> Cursor
    ensures { FirstTries goal result }
{
    let path = match goal {
        Some(goal) if !goal.inner => goal.parent,
        _ => None,
    };
    Cursor { path, entry: 0 }
}

impl<L: Leaf, B: Book<L>> Search<'_, '_, '_, B, L> {
    // Takes the latest step back, so that its goal goes on with the next try; fails where none stands.
    fn step_back(&mut self) -> Result<(), Ending>
        requires running { SearchRuns L.PartialEq.eq (B.Book.entries self.old.derivation.now.book.now)
            (origin_of self.old) self.old }
        requires exhausted { Exhausted (B.Book.entries self.old.derivation.now.book.now) (moment_of self.old) }
        ensures turned { SearchTurned L.PartialEq.eq (B.Book.entries self.old.derivation.now.book.now)
            (origin_of self.old) self.old self.new result }
        ensures same { GoesOn self.old self.new }
        ensures unmoved { OnErr result ((self.old.derivation.now.depth ≡ 0) × (self.new ≡ self.old)) }
    {
        let depth = self.derivation.depth;
        if depth == 0 {
            return Err(Ending::Failed);
        }
        let frame = self.derivation.frames[depth - 1];
        let to = Extent {
            used: frame.used as usize,
            trail: frame.trail as usize,
        };
        self.derivation.store.retract(to);
        self.derivation.depth = depth - 1;
        self.derivation.goal = Some(frame.goal);
        self.cursor = self.derivation.tries_after(frame.step);
        Ok(())
    }

    // Makes a try, unless the budget is spent, the record list is full or the free cells are too few.
    fn make_try(&mut self, goal: Goal, step: Step) -> Result<(), Ending>
        requires running { SearchRuns L.PartialEq.eq (B.Book.entries self.old.derivation.now.book.now)
            (origin_of self.old) self.old }
        requires facing { Facing (B.Book.entries self.old.derivation.now.book.now) (moment_of self.old)
            goal (Some step) }
        ensures turned { SearchTurned L.PartialEq.eq (B.Book.entries self.old.derivation.now.book.now)
            (origin_of self.old) self.old self.new result }
        ensures same { GoesOn self.old self.new }
    {
        if self.count == self.bounds.budget {
            return Err(Ending::Spent);
        }
        if self.derivation.depth == self.bounds.steps {
            return Err(Ending::Full);
        }
        let used = self.derivation.store.extent.used;
        if self.bounds.cells - used < self.derivation.cells_needed(step) {
            return Err(Ending::Short);
        }
        self.cursor = if self.derivation.take_step(goal, step) {
            first_tries(self.derivation.goal)
        } else {
            self.derivation.tries_after(step)
        };
        self.count += 1;
        Ok(())
    }

    // Searches from a point on, to the end.
    fn run(&mut self) -> Result<(), Ending>
        requires { SearchRuns L.PartialEq.eq (B.Book.entries self.old.derivation.now.book.now)
            (origin_of self.old) self.old }
        ensures ended { SearchEnded L.PartialEq.eq (B.Book.entries self.old.derivation.now.book.now)
            (origin_of self.old) self.old self.new result }
        ensures same { GoesOn self.old self.new }
    {
        while let Some(goal) = self.derivation.goal {
            match next_try(self.derivation.book, goal.inner, self.cursor) {
                Some(step) => self.make_try(goal, step)?,
                None => self.step_back()?,
            }
        }
        Ok(())
    }

    // Makes a whole search, from its beginning to its end. Unless a record is found all is taken back.
    pub(crate) fn finish(&mut self) -> Finish
        requires ready { Ready self.old.derivation.now.goals.now self.old.bounds
            self.old.derivation.now.store.now.«cells».now self.old.derivation.now.store.now.work.now
            self.old.derivation.now.«frames».now }
        requires begun { Begun (B.Book.entries self.old.derivation.now.book.now)
            self.old.derivation.now.goals.now self.old.derivation.now.«frames».now
            self.old.bounds.first (standing_of self.old.derivation.now) }
        requires first { FirstTries self.old.derivation.now.goal self.old.cursor }
        requires untried { self.old.count ≡ 0 }
        ensures ran { Ran L.PartialEq.eq (B.Book.entries self.old.derivation.now.book.now)
            self.old.derivation.now.goals.now self.old.bounds
            (cells_of (take self.old.bounds.first self.old.derivation.now.store.now.«cells».now))
            self.old.derivation.now.store.now.«cells».now self.new.derivation.now.store.now.«cells».now
            self.new.derivation.now.«frames».now result }
        ensures same { GoesOn self.old self.new }
    {
        let start = Extent {
            used: self.bounds.first,
            trail: 0,
        };
        let ending = self.run();
        if ending.is_err() {
            self.derivation.store.retract(start);
        }
        Finish {
            ending,
            count: self.count,
            depth: self.derivation.depth,
            used: self.derivation.store.extent.used,
        }
    }
}
