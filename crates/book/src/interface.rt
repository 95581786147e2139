ghost use Rattle.std.specs.Prelude.{◌≡◌, List, length};
ghost use Rattle.std.specs.Option.{option_map};
ghost use Rattle.theory.specs.Entries.{Entry, BookRules};
ghost use Rattle.book.specs.Answers.{outline_at, cell_at, goal_at, part_of};

use crate::entry::{EntryCell, Outline};
use leaf::kind::Leaf;

// A book has at most so many entries.
pub const MOST_ENTRIES: usize = 1024;

// A book of rules. Its meaning is a list of entries; every question is answered by it, and changes nothing.
pub trait Book<L: Leaf> {
    ghost entries: { Self → List (Entry L) };

    // How many entries there are.
    fn len(&self) -> usize
        ensures { result ≡ length (entries self.now) };

    // The entry's kind, cell count, head and body count; none where there is no such entry.
    fn outline(&self, entry: usize) -> Option<Outline>
        ensures { result ≡ outline_at (entries self.now) «entry» };

    // One cell of the entry; none where there is no such entry or cell.
    fn cell(&self, entry: usize, cell: usize) -> Option<EntryCell<L>>
        ensures { option_map part_of result ≡ cell_at (entries self.now) «entry» «cell» };

    // One body goal of the entry, by its cell; none where there is no such entry or goal.
    fn goal(&self, entry: usize, goal: usize) -> Option<u8>
        ensures { result ≡ goal_at (entries self.now) «entry» «goal» };

    // the entries keep the rules of a book
    ghost rules: { (b : Self) → ∥ BookRules (entries b) ∥₁ };
}
