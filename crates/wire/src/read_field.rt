// One field of an entry: tested, and read as a cell or as the goals.
ghost use Rattle.std.specs.Prelude.{◌≡◌, ◌<◌, ◌≤◌, true, false, List, ◌∷◌, length, get_or, MatchResult, nat_lt, slice_index_or};
ghost use Rattle.std.specs.List.{list_all};
ghost use Rattle.theory.specs.Entries.{Part};
ghost use Rattle.book.specs.Answers.{listed};
ghost use Rattle.form.specs.declared.fault.Cause.TheVariants.{TooMuch, WrongCell};
ghost use Rattle.form.specs.Meanings.{inner_fault, seen, shape};
ghost use Rattle.wire.specs.Marks.{marks_of};
ghost use Rattle.wire.specs.Reads.{ItemMeans};

use crate::decode::decode;
use crate::field::{Field, Split};
use crate::item::{Goals, Item};
use crate::spot::Spot;
use book::entry::{CellNumbers, EntryCell, Node};
use book::rules::all_below;
use form::fault::{Cause, Fault};
use leaf::kind::WireLeaf;

// Refuses one cell more where there are 64.
fn room(count: usize, spot: Spot) -> Result<(), Fault>
    ensures { MatchResult result (λ _. count < 64) (λ f. (64 ≤ count) × (f ≡ inner_fault TooMuch spot.place spot.«entry»)) }
{
    if count < 64 {
        Ok(())
    } else {
        Err(spot.inside(Cause::TooMuch))
    }
}

// The node over lower cells, of which there are so many.
fn read_node(symbol: u16, args: &[u8], count: usize, spot: Spot) -> Result<Node, Fault>
    requires { length args.now ≤ 4 }
    ensures { MatchResult result (λ n. (n.symbol ≡ symbol) × (listed n.args ≡ args.now) × (list_all (λ a. nat_lt a count) args.now ≡ true)) (λ f. (list_all (λ a. nat_lt a count) args.now ≡ false) × (f ≡ inner_fault WrongCell spot.place spot.«entry»)) }
{
    if !all_below(args, count) {
        return Err(spot.inside(Cause::WrongCell));
    }
    let args = CellNumbers::try_from(args).unwrap();
    Ok(Node { symbol, args })
}

// Whether the cells with those numbers are marked as nodes.
fn all_marked(nodes: &[bool], numbers: &[u8]) -> bool
    ensures { result ≡ list_all (λ n. get_or nodes.now n false) numbers.now }
{
    numbers.iter().all(|n| marked(nodes, *n))
}

// Whether there is a cell with that number, and it is marked as a node.
fn marked(nodes: &[bool], number: u8) -> bool
    ensures { result ≡ slice_index_or nodes.now number false }
{
    nodes.get(usize::from(number)).copied().unwrap_or(false)
}

// The head and the body goals, which are nodes among the cells.
fn read_goals(head: u8, body: &[u8], nodes: &[bool], spot: Spot) -> Result<Goals, Fault>
    requires { length body.now ≤ 8 }
    ensures { MatchResult result (λ g. (g.head ≡ head) × (listed g.body ≡ body.now) × (list_all (λ n. get_or nodes.now n false) (head ∷ body.now) ≡ true)) (λ f. (list_all (λ n. get_or nodes.now n false) (head ∷ body.now) ≡ false) × (f ≡ inner_fault WrongCell spot.place spot.«entry»)) }
{
    if !marked(nodes, head) || !all_marked(nodes, body) {
        return Err(spot.inside(Cause::WrongCell));
    }
    let body = CellNumbers::try_from(body).unwrap();
    Ok(Goals { head, body })
}

// Reads one field of an entry, after the cells read so far, of which the nodes are marked.
pub fn read_field<L: WireLeaf>(
    split: &Split<'_>,
    nodes: &[bool],
    spot: Spot,
) -> Result<Item<L>, Fault>
    ensures { (ps : List (Part L)) → marks_of ps ≡ nodes.now → ItemMeans spot (seen L.WireLeaf.wide L.WireLeaf.reading ps split.now.contents.now (shape split.now.tag)) result }
{
    let count = nodes.len();
    let field = decode::<L>(split, spot)?;
    match field {
        Field::Variable { spot } => {
            room(count, spot)?;
            Ok(Item::Cell(EntryCell::Variable))
        }
        Field::Leaf { spot, bytes } => {
            room(count, spot)?;
            let value = L::read(bytes).ok_or(spot.inside(Cause::WrongLeaf))?;
            Ok(Item::Cell(EntryCell::Leaf(value)))
        }
        Field::Node { spot, symbol, args } => {
            room(count, spot)?;
            let node = read_node(symbol, args, count, spot)?;
            Ok(Item::Cell(EntryCell::Node(node)))
        }
        Field::Goals { spot, head, body } => {
            let goals = read_goals(head, body, nodes, spot)?;
            Ok(Item::Goals(goals))
        }
    }
}
