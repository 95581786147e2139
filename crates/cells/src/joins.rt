// Joining cells: two cells meet, and then all that follows from it.
ghost use Rattle.std.specs.Prelude.{◌≡◌, ℕ, ◌+◌, ◌<◌, ◌≤◌, length, is_ok};
ghost use Rattle.unify.specs.Cells.{content_at};
ghost use Rattle.unify.specs.Unify.{fits as fitting};
ghost use Rattle.unify.specs.Unify.{meet as meeting, link as linking};
ghost use Rattle.unify.specs.Unify.{meet_all as meeting_all, pay as paying, meet_arguments as meeting_arguments, rest, join as joining};
ghost use Rattle.std.specs.List.{AllByRecursion};
ghost use Rattle.cells.specs.Cells.{cells_of, content_of, Counted, AllCounted};
ghost use Rattle.cells.specs.Loops.{Given, Came};

use crate::cell::{Cell, Content};
use crate::chains::{link, rank, root, written};
use crate::undo::rejoin;
use leaf::kind::Leaf;

// Two roots that do not fit were to be joined.
#[derive(Clone, Copy, PartialEq, Eq, Debug)]
pub(crate) struct Clash;

// The cells that are being joined. The trail has, in its first `used` places, those joined so far, in the order of their
// joining; what the first `paid` of them owe is paid. In unifying an open root may be joined to another root; in comparing
// it meets only itself: a plain yes or no, which `fit` alone asks. The trail is no struct of its own: of a loan in a struct within, no caller learns what it left.
#[derive(Drop)]
struct Joins<'c, 't, L> {
    cells: &'c mut [Cell<L>],
    trail: &'t mut [u16],
    used: usize,
    paid: usize,
    open_joins: bool,
}

// Whether two roots can be joined, by what stands at them.
#[tactic(auto, unfolding(unify::specs::Unify::fits))]
fn fit<L: Leaf>(open_joins: bool, c: &Content<L>, d: &Content<L>) -> bool
    requires first { Counted c.now }
    requires second { Counted d.now }
    ensures { result ≡ fitting L.PartialEq.eq open_joins
        (content_of c.now) (content_of d.now) }
{
    match (c, d) {
        (Content::Open, _) | (_, Content::Open) => open_joins,
        (Content::Leaf(v), Content::Leaf(w)) => v == w,
        (
            Content::Node {
                symbol: f,
                count: m,
                ..
            },
            Content::Node {
                symbol: g,
                count: n,
                ..
            },
        ) => *f == *g && *m == *n,
        _ => false,
    }
}

impl<L: Leaf> Joins<'_, '_, L> {
    ghost use Rattle.cells.specs.Loops.{IsReady, Stepped, Ran, Starts, at_place, Keeps, Takes};

    // Joins a root to another, and puts it on the trail.
    fn link_down(&mut self, high: u16, low: u16)
        requires inside { high < length self.old.cells.now }
        requires counted { AllCounted self.old.cells.now }
        requires room { self.old.used < length self.old.trail.now }
        ensures is { (place : ℕ) → at_place self.new place ≡ linking (at_place self.old place) high low }
        ensures counted { AllCounted self.new.cells.now }
        ensures one_more { self.new.used ≡ self.old.used + 1 }
        ensures keeps { Keeps self.old self.new }
    {
        rejoin(self.cells, high, Some(low));
        self.trail[self.used] = high;
        self.used += 1;
    }

    // Makes two cells have one root, if what stands at their roots fits.
    fn meet(&mut self, x: u16, y: u16) -> Result<(), Clash>
        requires ready { IsReady self.old }
        requires first { x < length self.old.cells.now }
        requires second { y < length self.old.cells.now }
        ensures { Stepped (λ s. meeting L.PartialEq.eq self.old.open_joins s x y) self.old (is_ok result) self.new }
    {
        // Through a variable: a slice of such cells in a field is not lent again for reading.
        let cells = &mut *self.cells;
        let r = root(cells, x);
        let t = root(cells, y);
        if r == t {
            return Ok(());
        }
        let c = written(cells, r);
        let d = written(cells, t);
        if !fit(self.open_joins, &c, &d) {
            return Err(Clash);
        }
        if rank(cells, r) < rank(cells, t) {
            self.link_down(t, r);
        } else {
            self.link_down(r, t);
        }
        Ok(())
    }

    // Makes each two cells of two lists have one root, from left to right.
    fn meet_all(&mut self, xs: &[u16], ys: &[u16]) -> Result<(), Clash>
        requires ready { IsReady self.old }
        requires first { AllByRecursion (λ x. x < length self.old.cells.now) xs.now }
        requires second { AllByRecursion (λ y. y < length self.old.cells.now) ys.now }
        ensures { Stepped (λ s. meeting_all L.PartialEq.eq self.old.open_joins s xs.now ys.now) self.old (is_ok result) self.new }
    {
        for (x, y) in xs.iter().zip(ys) {
            self.meet(*x, *y)?;
        }
        Ok(())
    }

    // Makes the arguments of two cells meet; what is no node has none.
    fn meet_arguments(&mut self, i: u16, j: u16) -> Result<(), Clash>
        requires ready { IsReady self.old }
        requires first { i < length self.old.cells.now }
        requires second { j < length self.old.cells.now }
        ensures { Stepped (λ s. meeting_arguments L.PartialEq.eq self.old.open_joins s
            (content_at s.cells i) (content_at s.cells j)) self.old (is_ok result) self.new }
    {
        let cells = &mut *self.cells;
        let c = written(cells, i);
        let d = written(cells, j);
        self.meet_all(c.arguments(), d.arguments())
    }

    // Pays what a joined cell owes: that its arguments meet those of its target.
    fn pay(&mut self, i: u16) -> Result<(), Clash>
        requires ready { IsReady self.old }
        requires inside { i < length self.old.cells.now }
        ensures { Stepped (λ s. paying L.PartialEq.eq self.old.open_joins s i) self.old (is_ok result) self.new }
    {
        let cells = &mut *self.cells;
        match link(cells, i) {
            None => Ok(()),
            Some(j) => self.meet_arguments(i, j),
        }
    }

    // The next cell of the trail that may owe something.
    fn next(&mut self) -> Option<u16>
        requires { self.old.used ≤ length self.old.trail.now }
        ensures { Takes self.old result self.new }
    {
        if self.paid >= self.used {
            return None;
        }
        let cell = self.trail[self.paid];
        self.paid += 1;
        Some(cell)
    }

    // Goes through the trail as a queue until nothing is owed any more.
    fn settle(&mut self) -> Result<(), Clash>
        requires ready { IsReady self.old }
        requires none_paid { self.old.paid ≡ 0 }
        ensures { Ran (rest L.PartialEq.eq self.old.open_joins (at_place self.old 0)) self.old (is_ok result) self.new }
    {
        while let Some(cell) = self.next() {
            self.pay(cell)?;
        }
        Ok(())
    }

    // Joins two cells, and all that follows from it.
    fn join(&mut self, a: u16, b: u16) -> Result<(), Clash>
        requires { Starts self.old a b }
        ensures came { Ran (joining L.PartialEq.eq self.old.open_joins (cells_of self.old.cells.now) a b)
            self.old (is_ok result) self.new }
        ensures same_cells { self.new.cells.ghost_name ≡ self.old.cells.ghost_name }
        ensures same_trail { self.new.trail.ghost_name ≡ self.old.trail.ghost_name }
    {
        self.meet(a, b)?;
        self.settle()
    }
}

// Joins two cells, and all that follows from it. The cells that it joins, by then or until two clash, stand first in the
// work list: says how many they are.
pub(crate) fn join<L: Leaf>(
    cells: &mut [Cell<L>],
    work: &mut [u16],
    open_joins: bool,
    a: u16,
    b: u16,
) -> (Result<(), Clash>, usize)
    requires { Given cells.old work.old a b }
    ensures { Came (joining L.PartialEq.eq open_joins (cells_of cells.old) a b) cells.old work.old
        (is_ok result.0) cells.new work.new result.1 }
{
    let mut joins = Joins {
        cells,
        trail: work,
        used: 0,
        paid: 0,
        open_joins,
    };
    let met = joins.join(a, b);
    (met, joins.used)
}
