// The entry rules, tested on the rows and cells of a table.
ghost use Rattle.std.specs.Prelude.{◌≡◌, ℕ, ◌+◌, ◌<◌, ◌≤◌, Bool, true, List, map, length, take, drop, Some, Decides, MatchOption};
ghost use Rattle.std.specs.List.{slice_get, AllByRecursion};
ghost use Rattle.theory.specs.Entries.{BodyRule, EntryRules, IsNode, PartRules, PartsRules};
ghost use Rattle.book.specs.Answers.{kind_of, listed, part_of};
ghost use Rattle.book.specs.Tables.{RowRules, entry_over};

use crate::entry::{CellNumbers, EntryCell, EntryKind};
use crate::table::Row;
use leaf::kind::Leaf;

// An entry has at most so many cells.
const MOST_CELLS: usize = 64;

// Whether every number is below the limit.
pub fn all_below(numbers: &[u8], limit: usize) -> bool
    ensures { Decides result (AllByRecursion (λ n. n < limit) numbers.now) }
{
    numbers.iter().all(|n| (*n as usize) < limit)
}

// Whether a node may stand at that place of an entry: at most four arguments, all lower cells. Every symbol number may.
fn node_keeps(symbol: u16, args: &CellNumbers<4>, place: usize) -> bool
    ensures { Decides result ((symbol < 65536) × (length (listed args.now) ≤ 4) × AllByRecursion (λ n. n < place) (listed args.now)) }
{
    args.numbers().is_some_and(|args| all_below(args, place))
}

// Whether the cell may stand at that place of an entry.
fn cell_keeps<L: Leaf>(cell: &EntryCell<L>, place: usize) -> bool
    ensures { Decides result (PartRules place (part_of cell.now)) }
{
    match cell {
        EntryCell::Node(node) => node_keeps(node.symbol, &node.args, place),
        _ => true,
    }
}

// Whether every cell may stand where it does.
fn cells_keep<L: Leaf>(cells: &[EntryCell<L>]) -> bool
    ensures { Decides result (PartsRules 0 (map part_of cells.now)) }
{
    cells
        .iter()
        .enumerate()
        .all(|(place, cell)| cell_keeps(cell, place))
}

// Whether there is a cell with that number, and it is a node.
pub fn has_node<L: Leaf>(cells: &[EntryCell<L>], number: u8) -> bool
    ensures { Decides result (IsNode (slice_get (map part_of cells.now) number)) }
{
    cells
        .get(number as usize)
        .is_some_and(|cell| cell.is_node())
}

// Whether the cells with those numbers are all nodes.
pub fn are_nodes<L: Leaf>(cells: &[EntryCell<L>], numbers: &[u8]) -> bool
    ensures { Decides result (AllByRecursion (λ n. IsNode (slice_get (map part_of cells.now) n)) numbers.now) }
{
    numbers.iter().all(|n| has_node(cells, *n))
}

// Whether an entry of that kind may have that body: a co-fact has none.
fn body_allowed(kind: EntryKind, body: &[u8]) -> bool
    ensures { Decides result (BodyRule (kind_of kind) body.now) }
{
    kind == EntryKind::Clause || body.is_empty()
}

// Whether the row's head and body goals are nodes of its own cells, at most eight goals, none for a co-fact.
fn goals_keep<L: Leaf>(own: &[EntryCell<L>], row: &Row) -> bool
    ensures { Decides result (IsNode (slice_get (map part_of own.now) row.now.head) × (length (listed row.now.body) ≤ 8) × AllByRecursion (λ n. IsNode (slice_get (map part_of own.now) n)) (listed row.now.body) × BodyRule (kind_of row.now.kind) (listed row.now.body)) }
{
    let Some(body) = row.body.numbers() else {
        return false;
    };
    has_node(own, row.head) && are_nodes(own, body) && body_allowed(row.kind, body)
}

// Whether the row's entry, over its own cells, keeps the entry rules.
fn entry_keeps<L: Leaf>(own: &[EntryCell<L>], row: &Row) -> bool
    ensures { Decides result (EntryRules (entry_over own.now row.now)) }
{
    !own.is_empty() && own.len() <= MOST_CELLS && cells_keep(own) && goals_keep(own, row)
}

// The row's own cells, unless it points past the supplied ones.
fn own_cells<'a, L: Leaf>(cells: &'a [EntryCell<L>], row: &Row) -> Option<&'a [EntryCell<L>]>
    ensures { MatchOption result (row.now.first + row.now.cells ≤ length cells.now → ⊥) (λ s. (row.now.first + row.now.cells ≤ length cells.now) × (s.now ≡ take row.now.cells (drop row.now.first cells.now))) }
{
    let end = row.first.checked_add(row.cells)?;
    cells.get(row.first..end)
}

// Whether the row is good: it does not point past the supplied cells, and its entry keeps the entry rules.
pub fn row_keeps<L: Leaf>(cells: &[EntryCell<L>], row: &Row) -> bool
    ensures { Decides result (RowRules cells.now row.now) }
{
    own_cells(cells, row).is_some_and(|own| entry_keeps(own, row))
}
