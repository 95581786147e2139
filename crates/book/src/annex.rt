ghost use Rattle.std.specs.Prelude.{◌≡◌};
ghost use Rattle.std.specs.List.{slice_get};
ghost use Rattle.book.specs.Annexes.{annexed, annexed_rules, LiesIn};

use crate::entry::{EntryCell, Outline};
use crate::interface::{Book, MOST_ENTRIES};
use leaf::kind::Leaf;

// Two books as one: the entries of the first, then those of the second, ended after 1,024.
#[derive(Drop)]
pub struct Annex<A, B> {
    pub first: A,
    pub second: B,
}

// In which of the two books an entry lies: in the first under its own number, in the second under another.
#[derive(Clone, Copy, PartialEq, Eq, Debug)]
pub enum Place {
    First,
    Second(usize),
}

// Where an entry of the annex lies, if there is such an entry.
fn place_of<L: Leaf, A: Book<L>, B: Book<L>>(annex: &Annex<A, B>, entry: usize) -> Option<Place>
    ensures { LiesIn (A.Book.entries annex.now.first) (B.Book.entries annex.now.second) «entry» result }
{
    let before = annex.first.len();
    if entry < before {
        Some(Place::First)
    } else if entry < MOST_ENTRIES {
        Some(Place::Second(entry - before))
    } else {
        None
    }
}

// The three questions about an entry are passed on by a match each: one function over two closures would be no shorter.
impl<L: Leaf, A: Book<L>, B: Book<L>> Book<L> for Annex<A, B> {
    ghost entries = { λ b. annexed (A.Book.entries b.first) (B.Book.entries b.second) };

    ghost rules = { λ b. annexed_rules (A.Book.rules b.first) (B.Book.rules b.second) };

    fn len(&self) -> usize {
        self.first
            .len()
            .saturating_add(self.second.len())
            .min(MOST_ENTRIES)
    }

    fn outline(&self, entry: usize) -> Option<Outline> {
        match place_of::<L, A, B>(self, entry)? {
            Place::First => self.first.outline(entry),
            Place::Second(entry) => self.second.outline(entry),
        }
    }

    fn cell(&self, entry: usize, cell: usize) -> Option<EntryCell<L>> {
        match place_of::<L, A, B>(self, entry)? {
            Place::First => self.first.cell(entry, cell),
            Place::Second(entry) => self.second.cell(entry, cell),
        }
    }

    fn goal(&self, entry: usize, goal: usize) -> Option<u8> {
        match place_of::<L, A, B>(self, entry)? {
            Place::First => self.first.goal(entry, goal),
            Place::Second(entry) => self.second.goal(entry, goal),
        }
    }
}
