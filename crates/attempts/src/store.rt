// The cells and the work list that a search was lent: trying a step on them, and taking steps back.
ghost use Rattle.std.specs.Prelude.{◌≡◌, ◌+◌, ◌<◌, ◌≤◌, [], length, take, true, false, Some};
ghost use Rattle.cells.specs.Cells.{cells_of, WellFormed};
ghost use Rattle.book.specs.Answers.{outline_at};
ghost use Rattle.attempts.specs.Attempts.{parts_at, HeadFits, Unifiable, UnifiedOn, Copyable, Copied, Tryable, Attempted, Retractable, Retracted};
ghost use Rattle.attempts.specs.Lists.{SameLists};

use crate::extent::Extent;
use crate::instance::content;
use book::entry::{EntryCell, Outline};
use book::interface::Book;
use cells::cell::{Cell, Content};
use cells::chains::{root, written};
use cells::undo::take_back;
use cells::unifier::unify;
use leaf::kind::Leaf;

// The cells, the work list, in which the trail of joins lies, and how far both are filled: both are supplied. Its tries say
// whether they stand: one that falls is no error, and the store has the rest.
#[derive(Drop)]
pub struct Store<'a, L> {
    pub cells: &'a mut [Cell<L>],
    pub work: &'a mut [u16],
    pub extent: Extent,
}

impl<L: Leaf> Store<'_, L> {
    // Whether the head of an entry has the goal's label, where the goal has one: if not, no instance has to be made.
    fn head_fits<B: Book<L>>(&self, book: &B, entry: u16, head: u8, goal: u16) -> bool
        requires part { self.now.extent.used ≤ length self.now.«cells».now }
        requires sound { WellFormed (take self.now.extent.used self.now.«cells».now) }
        requires inside { goal < self.now.extent.used }
        ensures { HeadFits L.PartialEq.eq (B.Book.entries book.now) «entry» head
            (cells_of (take self.now.extent.used self.now.«cells».now)) goal result }
    {
        let cells = &self.cells[..self.extent.used];
        match written(cells, root(cells, goal)) {
            Content::Open => true,
            Content::Leaf(_) => false,
            Content::Node { symbol, count, .. } => match book.cell(entry as usize, head as usize) {
                Some(EntryCell::Node(node)) => symbol == node.symbol && count == node.args.len,
                _ => true,
            },
        }
    }

    // Unifies two of the first so many cells, which are then in use; the joins go behind those on the trail.
    fn unify(&mut self, used: usize, a: u16, b: u16) -> bool
        requires { Unifiable self.old.«cells».now used self.old.work.now self.old.extent.trail a b }
        ensures is { UnifiedOn L.PartialEq.eq a b result used self.old.«cells».now self.old.work.now
            self.old.extent.trail self.new.«cells».now self.new.work.now self.new.extent.trail }
        ensures stands { result ≡ true → self.new.extent.used ≡ used }
        ensures falls { result ≡ false → self.new.extent ≡ self.old.extent }
        ensures same { SameLists self.old self.new }
    {
        let at = self.extent.trail;
        // the store keeps what is joined, and a closure would have to hold it, so it is a match
        match unify(self.cells, used, &mut self.work[at..], a, b) {
            Some(joined) => {
                self.extent = Extent {
                    used,
                    trail: at + joined,
                };
                true
            }
            None => false,
        }
    }

    // Copies the cells of the entry with that number behind those in use.
    fn copy_entry<B: Book<L>>(&mut self, book: &B, number: u16, count: usize)
        requires { Copyable (B.Book.entries book.now) number count self.old.«cells».now self.old.extent.used }
        ensures is { Copied (parts_at (B.Book.entries book.now) number) self.old.«cells».now
            self.old.extent.used count self.new.«cells».now }
        ensures work { self.new.work.now ≡ self.old.work.now }
        ensures extent { self.new.extent ≡ self.old.extent }
        ensures same { SameLists self.old self.new }
    {
        let base = self.extent.used;
        // A book is asked for each of its cells by number, so the loop counts.
        for j in 0..count {
            if let Some(cell) = book.cell(number as usize, j) {
                self.cells[base + j] = content(cell, base as u16).into();
            }
        }
    }

    // Tries an entry for a goal: its head, in a new instance, is equated with the goal.
    pub fn try_entry<B: Book<L>>(
        &mut self,
        book: &B,
        entry: u16,
        outline: Outline,
        goal: u16,
    ) -> bool
        requires outlined { outline_at (B.Book.entries book.now) «entry» ≡ Some outline }
        requires tryable { Tryable self.old.«cells».now self.old.work.now self.old.extent outline.«cells» goal }
        ensures is { Attempted L.PartialEq.eq (parts_at (B.Book.entries book.now) «entry»)
            goal (self.old.extent.used + outline.head) result
            self.old.«cells».now self.old.work.now self.old.extent
            self.new.«cells».now self.new.work.now self.new.extent }
        ensures falls { result ≡ false → self.new.extent ≡ self.old.extent }
        ensures same { SameLists self.old self.new }
    {
        if !self.head_fits(book, entry, outline.head, goal) {
            return false;
        }
        let used = self.extent.used;
        let head = used as u16 + u16::from(outline.head);
        self.copy_entry(book, entry, outline.cells);
        self.unify(used + outline.cells, goal, head)
    }

    // Tries to close a loop: the goal is equated with that of an earlier step.
    pub fn try_loop(&mut self, goal: u16, earlier: u16) -> bool
        requires tryable { Tryable self.old.«cells».now self.old.work.now self.old.extent 0 goal }
        requires earlier { earlier < self.old.extent.used }
        ensures is { Attempted L.PartialEq.eq [] goal earlier result
            self.old.«cells».now self.old.work.now self.old.extent
            self.new.«cells».now self.new.work.now self.new.extent }
        ensures falls { result ≡ false → self.new.extent ≡ self.old.extent }
        ensures same { SameLists self.old self.new }
    {
        self.unify(self.extent.used, goal, earlier)
    }

    // Takes all back that was done since an earlier extent: the joins since then, and the cells since then.
    pub fn retract(&mut self, to: Extent)
        requires { Retractable self.old.«cells».now self.old.work.now self.old.extent to }
        ensures is { Retracted self.old.«cells».now self.old.work.now self.old.extent to self.new.«cells».now }
        ensures work { self.new.work.now ≡ self.old.work.now }
        ensures extent { self.new.extent ≡ to }
        ensures same { SameLists self.old self.new }
    {
        let from = to.trail;
        let Extent { used, trail } = self.extent;
        // The joins are lent as `&mut`, since the rules for loans want both fields lent in one way.
        take_back(&mut self.cells[..used], &mut self.work[from..trail]);
        self.extent = to;
    }
}
