// The fields of an entry, read one after another.
ghost use Rattle.std.specs.Prelude.{◌≡◌, ◌+◌, ◌<◌, ◌≤◌, List, [], ◌++◌, length, IfOk, IfSome, MatchResult};
ghost use Rattle.form.specs.declared.fault.Cause.TheVariants.{WrongGoals};
ghost use Rattle.form.specs.Meanings.{inner_fault};
ghost use Rattle.theory.specs.Entries.{Part};
ghost use Rattle.wire.specs.Marks.{marks_of};
ghost use Rattle.wire.specs.Reads.{FieldStep, new_marks};

use crate::cursor::Fields;
use crate::item::Item;
use crate::read_field::read_field;
use crate::split::split;
use crate::spot::Spot;
use arrayvec::ArrayVec;
use form::fault::{Cause, Fault};
use leaf::kind::WireLeaf;

impl<'a> Fields<'a> {
    pub fn of(contents: &'a [u8], spot: Spot) -> Fields<'a>
        requires { spot.place + length contents.now ≤ 65535 }
        ensures rest { result.rest.now ≡ contents.now }
        ensures spot { result.spot ≡ spot }
        ensures nodes { result.nodes.items ≡ [] }
    {
        Fields {
            rest: contents,
            spot,
            nodes: ArrayVec::new(),
        }
    }

    // What the next field adds to the entry; nothing at the end.
    pub fn next<L: WireLeaf>(&mut self) -> Result<Option<Item<L>>, Fault>
        ensures shorter { IfOk result (λ o. IfSome o (λ _. length self.new.rest.now < length self.old.rest.now)) }
        ensures same_entry { self.new.spot.«entry» ≡ self.old.spot.«entry» }
        ensures means { (ps : List (Part L)) → marks_of ps ≡ self.old.nodes.items → FieldStep L.WireLeaf.wide L.WireLeaf.reading ps self.old self.new result }
    {
        if self.rest.is_empty() {
            return Ok(None);
        }
        let field = split(self.rest).ok_or(self.spot.inside(Cause::PastEnd))?;
        let item = read_field::<L>(&field, self.nodes.as_slice(), self.spot)?;
        mark(&mut self.nodes, &item);
        self.spot.place += self.rest.len() - field.rest.len();
        self.rest = field.rest;
        Ok(Some(item))
    }

    // A fault where goals were read, if any byte follows them.
    pub fn close(&self) -> Result<(), Fault>
        ensures { MatchResult result (λ _. length self.now.rest.now ≡ 0) (λ f. (0 < length self.now.rest.now) × (f ≡ inner_fault WrongGoals self.now.spot.place self.now.spot.«entry»)) }
    {
        if self.rest.is_empty() {
            Ok(())
        } else {
            Err(self.spot.inside(Cause::WrongGoals))
        }
    }
}

// Marks the cell that was read, if it is one, as a node or as none.
fn mark<L: WireLeaf>(nodes: &mut ArrayVec<bool, 64>, item: &Item<L>)
    requires { length nodes.old.items + length (new_marks item.now) ≤ 64 }
    ensures { nodes.new.items ≡ nodes.old.items ++ new_marks item.now }
{
    if let Item::Cell(cell) = item {
        nodes.push(cell.is_node());
    }
}
