// Checking a record.
ghost use Rattle.std.specs.Prelude.{◌≡◌, ◌-◌, length, take};
ghost use Rattle.theory.specs.Calls.{check as checking};
ghost use Rattle.searching.specs.Checking.{checks};
ghost use Rattle.cells.specs.Cells.{cells_of};
ghost use Rattle.calls.specs.Steps.{steps_of};
ghost use Rattle.attempts.specs.Lists.{SameLists};
ghost use Rattle.slate.specs.Slates.{in_use, KeptOver};
ghost use Rattle.solver.specs.Runs.{Ready};
ghost use Rattle.solver.specs.Checking.{passes_or, bounds_of, TakenBack};

use crate::derivation::Derivation;
use crate::input::admit;
use crate::limits::{MOST_GOALS, MOST_STEPS};
use attempts::extent::Extent;
use attempts::store::Store;
use book::interface::Book;
use calls::step::Step;
use cells::cell::Cell;
use frames::frame::Frame;
use frames::goals::next_goal;
use leaf::kind::Leaf;
use slate::limits::MOST_CELLS;
use slate::refusal::Refusal;
use slate::slate::Slate;

// Replays a record over a store with nothing on the trail, and takes all back.
// A function of its own: one that makes both the store and the derivation over it was tried, and gets no proof. So was one
// that makes the derivation, here and for the other of searching and replaying: of the loans in what a call answers its
// caller does not learn what they leave.
fn replay_over<'a, L: Leaf, B: Book<L>>(
    book: &'a B,
    goals: &'a [u16],
    room: usize,
    store: &'a mut Store<'_, L>,
    frames: &'a mut [Frame],
    record: &[Step],
) -> Result<(), Refusal>
    requires ready { Ready goals.now (bounds_of (length «record».now) room store.old.extent.used)
        store.old.«cells».now store.old.work.now frames.old }
    requires trail { store.old.extent.trail ≡ 0 }
    ensures back { TakenBack store.old.extent.used
        (checks L.PartialEq.eq (B.Book.entries book.now) store.old.extent.used (room - store.old.extent.used)
        (cells_of (take store.old.extent.used store.old.«cells».now)) goals.now (steps_of «record».now))
        store.old.«cells».now store.new.«cells».now (passes_or result) }
    ensures same { SameLists store.old store.new }
{
    let start = store.extent;
    let goal = next_goal(book, goals, frames, None, 0);
    let mut derivation = Derivation {
        book,
        goals,
        store,
        frames,
        depth: 0,
        goal,
    };
    let answer = derivation.replay(room, record);
    derivation.store.retract(start);
    answer
}

// Replays a record over the cells in use, and takes all back. It is where the lists become a store.
fn replay_and_retract<'a, L: Leaf, B: Book<L>>(
    book: &'a B,
    goals: &'a [u16],
    room: usize,
    cells: &'a mut [Cell<L>],
    used: usize,
    work: &'a mut [u16],
    frames: &'a mut [Frame],
    record: &[Step],
) -> Result<(), Refusal>
    requires { Ready goals.now (bounds_of (length «record».now) room used) cells.old work.old frames.old }
    ensures { TakenBack used
        (checks L.PartialEq.eq (B.Book.entries book.now) used (room - used)
        (cells_of (take used cells.old)) goals.now (steps_of «record».now))
        cells.old cells.new (passes_or result) }
{
    let extent = Extent { used, trail: 0 };
    let mut store = Store {
        cells,
        work,
        extent,
    };
    replay_over(book, goals, room, &mut store, frames, record)
}

// Replays a record: passed, or the first bad step and the rule that it breaks. The slate is left unaltered.
// The lists stay parameters, and no struct, since a sitting lends parts of them to each call (see `make_solve`).
pub fn check<L: Leaf, B: Book<L>>(
    slate: &mut Slate<L>,
    book: &B,
    goals: &[u16],
    record: &[Step],
    work: &mut [u16],
    frames: &mut [Frame],
) -> Result<(), Refusal>
    ensures kept { KeptOver (B.Book.entries book.now) slate.old slate.new
        (checking goals.now (steps_of «record».now) (length work.old)
        (length frames.old)) (passes_or result) }
    ensures unaltered { in_use slate.new ≡ in_use slate.old }
{
    if goals.len() > MOST_GOALS || record.len() > MOST_STEPS {
        return Err(Refusal::TooLong);
    }
    let used = slate.used;
    let room = slate.cells.len().min(MOST_CELLS);
    admit(
        slate.cells.as_slice(),
        used,
        goals,
        work.len(),
        frames.len(),
        record.len(),
    )?;
    replay_and_retract(
        book,
        goals,
        room,
        slate.cells.as_mut_slice(),
        used,
        work,
        frames,
        record,
    )
}
