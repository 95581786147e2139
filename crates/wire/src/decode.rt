ghost use Rattle.std.specs.Prelude.{◌≡◌, List, MatchResult};
ghost use Rattle.theory.specs.Entries.{Part};
ghost use Rattle.form.specs.Meanings.{inner_fault, seen, shape, wrong};
ghost use Rattle.wire.specs.Reads.{IsField};

use crate::field::{Field, Split};
use crate::spot::Spot;
use crate::tag::Tag;
use form::fault::{Cause, Fault};
use leaf::kind::WireLeaf;

// The field of an entry by its tag, if its length is one that the tag allows.
pub fn decode<'a, L: WireLeaf>(split: &Split<'a>, spot: Spot) -> Result<Field<'a>, Fault>
    ensures { MatchResult result (IsField L.WireLeaf.wide spot split.now.tag split.now.contents.now) (λ f. (f ≡ inner_fault f.cause spot.place spot.«entry») × ((ps : List (Part L)) → seen L.WireLeaf.wide L.WireLeaf.reading ps split.now.contents.now (shape split.now.tag) ≡ wrong f.cause)) }
{
    match (Tag::try_from(split.tag), split.contents) {
        (Ok(Tag::Variable), []) => Ok(Field::Variable { spot }),
        (Ok(Tag::Leaf), bytes) if bytes.len() == L::width() => Ok(Field::Leaf { spot, bytes }),
        (Ok(Tag::Node), [hi, lo, args @ ..]) if args.len() <= 4 => {
            let symbol = u16::from_be_bytes([*hi, *lo]);
            Ok(Field::Node { spot, symbol, args })
        }
        (Ok(Tag::Goals), [head, body @ ..]) if body.len() <= 8 => Ok(Field::Goals {
            spot,
            head: *head,
            body,
        }),
        (Err(_) | Ok(Tag::Clause | Tag::CoFact), _) => Err(spot.inside(Cause::WrongTag)),
        _ => Err(spot.inside(Cause::WrongLength)),
    }
}
