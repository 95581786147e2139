ghost use Rattle.std.specs.Prelude.{◌≡◌, ◌<◌, ◌≤◌, ◌⊎◌, length, Some, Decides, MatchOption};
ghost use Rattle.std.specs.List.{slice_get};
ghost use Rattle.std.specs.Result.{MatchResult};
ghost use Rattle.theory.specs.Entries.{IsNode};
ghost use Rattle.book.specs.Answers.{kind_of, kind_word, listed, part_of};

use std::fmt;

// What kind of rule an entry is.
#[derive(Clone, Copy, PartialEq, Eq, Debug)]
pub enum EntryKind {
    Clause,
    CoFact,
}

impl fmt::Display for EntryKind {
    ghost output = { λ kind. Some (kind_word (kind_of kind)) };

    fn fmt<W: fmt::Write>(&self, f: &mut fmt::Formatter<W>) -> fmt::Result {
        f.write_str(match self {
            EntryKind::Clause => "clause",
            EntryKind::CoFact => "cofact",
        })
    }
}

// Numbers of cells of an entry: the first `len` of `cells`. Tables are supplied, and a list in one that says more than it
// holds is a fault that the book finds, so the length stands beside the numbers.
#[derive(Clone, Copy, Debug)]
pub struct CellNumbers<const N: usize> {
    pub len: u8,
    pub cells: [u8; N],
}

// More numbers than a list can hold.
#[derive(Clone, Copy, PartialEq, Eq, Debug)]
pub struct TooMany;

impl<const N: usize> TryFrom<&[u8]> for CellNumbers<N> {
    type Error = TooMany;

    ghost try_from_gives = { λ numbers made. MatchResult made (λ l. listed l ≡ numbers.now) (λ _. (N < length numbers.now) ⊎ (255 < length numbers.now)) };

    fn try_from(numbers: &[u8]) -> Result<CellNumbers<N>, TooMany> {
        let count = numbers.len();
        if count > N || count > 255 {
            return Err(TooMany);
        }
        let mut cells = [0; N];
        cells[..count].copy_from_slice(numbers);
        Ok(CellNumbers {
            len: count as u8,
            cells,
        })
    }
}

impl<const N: usize> CellNumbers<N> {
    // The numbers listed, unless the list says that it has more than it holds.
    pub fn numbers(&self) -> Option<&[u8]>
        ensures { MatchOption result (N < length (listed self.now)) (λ s. (length (listed self.now) ≤ N) × (s.now ≡ listed self.now)) }
    {
        self.cells.get(..self.len as usize)
    }

    // One of the numbers listed; those past what the list holds are 0.
    pub fn get(&self, index: usize) -> Option<u8>
        ensures { result ≡ slice_get (listed self.now) index }
    {
        if index >= self.len as usize {
            return None;
        }
        Some(self.cells.get(index).copied().unwrap_or(0))
    }
}

// A node of an entry: a symbol number and the cells of its arguments.
#[derive(Clone, Copy, Debug)]
pub struct Node {
    pub symbol: u16,
    pub args: CellNumbers<4>,
}

// One cell of an entry: a variable of its own, a leaf, or a node over lower cells of the entry.
#[derive(Clone, Copy, Debug)]
pub enum EntryCell<L> {
    Variable,
    Leaf(L),
    Node(Node),
}

impl<L> EntryCell<L> {
    // Whether the cell is a node.
    pub fn is_node(&self) -> bool
        ensures { Decides result (IsNode (Some (part_of self.now))) }
    {
        matches!(self, EntryCell::Node(_))
    }
}

// What an entry is, without its cells and body goals: its kind, how many cells it has, which of them is its head, and how many body goals it has.
#[derive(Clone, Copy, PartialEq, Eq, Debug)]
pub struct Outline {
    pub kind: EntryKind,
    pub cells: usize,
    pub head: u8,
    pub goals: usize,
}
