// The fields of an entry, written into the first bytes of an output.
ghost use Rattle.std.specs.Prelude.{◌≡◌, ◌+◌, ◌<◌, ◌≤◌, ◌∷◌, length};
ghost use Rattle.leaf.specs.Bytes.{two_bytes};
ghost use Rattle.leaf.specs.Outputs.{Fills};
ghost use Rattle.theory.specs.Entries.{leaf, node};
ghost use Rattle.book.specs.Answers.{part_of};
ghost use Rattle.form.specs.Forms.{part_form};
ghost use Rattle.wire.specs.Tags.{tag_number};
ghost use Rattle.wire.specs.Writes.{arguments};

use crate::tag::Tag;
use book::entry::EntryCell;
use leaf::kind::WireLeaf;
use leaf::output::put;

// Writes the bytes and says how many they are. The part of the output that `put` gets is as long as they are, so that a
// compiler that puts it inline drops its test of the room, which is proved here.
pub(crate) fn put_bytes(bytes: &[u8], out: &mut [u8]) -> usize
    requires { length bytes.now ≤ length out.old }
    ensures { Fills out.old out.new bytes.now result }
{
    put(&mut out[..bytes.len()], bytes).unwrap()
}

// Writes what a field begins with: its tag, and how many bytes it holds.
pub(crate) fn put_header(tag: Tag, size: usize, out: &mut [u8]) -> usize
    requires { (size < 65536) × (3 ≤ length out.old) }
    ensures { Fills out.old out.new (tag_number tag ∷ two_bytes size) result }
{
    let [high, low] = (size as u16).to_be_bytes();
    put_bytes(&[u8::from(tag), high, low], out)
}

// Writes a leaf's field.
fn put_leaf<L: WireLeaf>(value: &L, out: &mut [u8]) -> usize
    requires { length (part_form L.WireLeaf.written (leaf value.now)) ≤ length out.old }
    ensures { Fills out.old out.new (part_form L.WireLeaf.written (leaf value.now)) result }
{
    let at = put_header(Tag::Leaf, L::width(), out);
    at + value.write(&mut out[at..]).unwrap()
}

// Writes a node's field.
fn put_node<L: WireLeaf>(symbol: u16, args: &[u8], out: &mut [u8]) -> usize
    requires { (length args.now ≤ 4) × (length (part_form L.WireLeaf.written (node symbol args.now)) ≤ length out.old) }
    ensures { Fills out.old out.new (part_form L.WireLeaf.written (node symbol args.now)) result }
{
    let start = put_header(Tag::Node, 2 + args.len(), out);
    let at = start + put_bytes(&symbol.to_be_bytes(), &mut out[start..]);
    at + put_bytes(args, &mut out[at..])
}

// Writes a cell's field.
pub(crate) fn put_cell<L: WireLeaf>(cell: &EntryCell<L>, out: &mut [u8]) -> usize
    requires { (arguments (part_of cell.now) ≤ 4) × (length (part_form L.WireLeaf.written (part_of cell.now)) ≤ length out.old) }
    ensures { Fills out.old out.new (part_form L.WireLeaf.written (part_of cell.now)) result }
{
    match cell {
        EntryCell::Variable => put_header(Tag::Variable, 0, out),
        EntryCell::Leaf(value) => put_leaf::<L>(value, out),
        EntryCell::Node(node) => { put_node::<L>(node.symbol, node.args.numbers().unwrap(), out) }
    }
}
