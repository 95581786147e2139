// The cells of an entry as an instance has them.
ghost use Rattle.std.specs.Prelude.{◌≤◌};
ghost use Rattle.attempts.specs.Attempts.{FewArguments, Written};

use book::entry::EntryCell;
use cells::cell::Content;
use leaf::kind::Leaf;

// A cell of an entry, as it is written behind so many cells.
pub(crate) fn content<L: Leaf>(cell: EntryCell<L>, base: u16) -> Content<L>
    requires few { FewArguments cell }
    requires small { base ≤ 2048 }
    ensures { Written base cell result }
{
    match cell {
        EntryCell::Variable => Content::Open,
        EntryCell::Leaf(value) => Content::Leaf(value),
        EntryCell::Node(node) => {
            // an array's `map` was tried: of its iterator the check does not learn each of the four sums
            let [a, b, c, d] = node.args.cells;
            Content::Node {
                symbol: node.symbol,
                arguments: [
                    base + u16::from(a),
                    base + u16::from(b),
                    base + u16::from(c),
                    base + u16::from(d),
                ],
                count: node.args.len,
            }
        }
    }
}
