// A whole search, from its beginning to its end.
ghost use Rattle.std.specs.Prelude.{◌≡◌, ◌≤◌, length, take};
ghost use Rattle.cells.specs.Cells.{cells_of};
ghost use Rattle.attempts.specs.Lists.{SameLists};
ghost use Rattle.solver.specs.Runs.{Ready, Ran};

use crate::bounds::Bounds;
use crate::derivation::Derivation;
use crate::ending::Finish;
use crate::search::{Search, first_tries};
use attempts::extent::Extent;
use attempts::store::Store;
use book::interface::Book;
use cells::cell::Cell;
use frames::frame::Frame;
use frames::goals::next_goal;
use leaf::kind::Leaf;

// Searches over a store of which no more is in use than when the search begins.
// A function of its own: one that makes both the store and the derivation over it was tried, and gets no proof. So was one
// that makes the derivation, here and for the other of searching and replaying: of the loans in what a call answers its
// caller does not learn what they leave.
fn search_over<'a, L: Leaf, B: Book<L>>(
    book: &'a B,
    goals: &'a [u16],
    bounds: Bounds,
    store: &'a mut Store<'_, L>,
    frames: &'a mut [Frame],
) -> Finish
    requires ready { Ready goals.now bounds store.old.«cells».now store.old.work.now frames.old }
    requires used { store.old.extent.used ≡ bounds.first }
    requires trail { store.old.extent.trail ≡ 0 }
    ensures ran { Ran L.PartialEq.eq (B.Book.entries book.now) goals.now bounds
        (cells_of (take bounds.first store.old.«cells».now)) store.old.«cells».now
        store.new.«cells».now frames.new result }
    ensures same { SameLists store.old store.new }
{
    let goal = next_goal(book, goals, frames, None, 0);
    let mut derivation = Derivation {
        book,
        goals,
        store,
        frames,
        depth: 0,
        goal,
    };
    let mut search = Search {
        derivation: &mut derivation,
        bounds,
        cursor: first_tries(goal),
        count: 0,
    };
    search.finish()
}

// Searches for a record of the goals. Unless one is found the cells are as they were.
pub(crate) fn run<'a, L: Leaf, B: Book<L>>(
    book: &'a B,
    goals: &'a [u16],
    bounds: Bounds,
    cells: &'a mut [Cell<L>],
    work: &'a mut [u16],
    frames: &'a mut [Frame],
) -> Finish
    requires { Ready goals.now bounds cells.old work.old frames.old }
    ensures { Ran L.PartialEq.eq (B.Book.entries book.now) goals.now bounds
        (cells_of (take bounds.first cells.old)) cells.old
        cells.new frames.new result }
{
    let extent = Extent {
        used: bounds.first,
        trail: 0,
    };
    let mut store = Store {
        cells,
        work,
        extent,
    };
    search_over(book, goals, bounds, &mut store, frames)
}
