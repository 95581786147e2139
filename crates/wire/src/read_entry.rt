// One entry of a book, tested.
ghost use Rattle.std.specs.Prelude.{◌≡◌, ◌+◌, ◌≤◌, length};
ghost use Rattle.std.specs.Option.{option_map};
ghost use Rattle.book.specs.Answers.{kind_of as kind_meant};
ghost use Rattle.form.specs.Meanings.{entry_kind};
ghost use Rattle.wire.specs.Reads.{ClosedAs, FoundAs};

use crate::field::Split;
use crate::good_entry::GoodEntry;
use crate::item::Goals;
use crate::read_contents::test_contents;
use crate::spot::Spot;
use crate::tag::Tag;
use book::entry::EntryKind;
use book::interface::MOST_ENTRIES;
use form::fault::{Cause, Fault};
use leaf::kind::WireLeaf;

// The kind of entry that the number stands for, if it is the tag of one: read and narrowed in one step, by no conversion
// of its own.
fn kind_of(tag: u8) -> Option<EntryKind>
    ensures { option_map kind_meant result ≡ entry_kind tag }
{
    match Tag::try_from(tag).ok()? {
        Tag::Clause => Some(EntryKind::Clause),
        Tag::CoFact => Some(EntryKind::CoFact),
        _ => None,
    }
}

// The goals of an entry, if its contents ended with some and it may have their body.
fn close(kind: EntryKind, goals: Option<Goals>, spot: Spot) -> Result<Goals, Fault>
    ensures { ClosedAs (kind_meant kind) spot goals result }
{
    match goals {
        Some(goals) if kind == EntryKind::Clause || goals.body.len == 0 => Ok(goals),
        _ => Err(spot.in_row(Cause::WrongGoals)),
    }
}

// Tests a field of the book's row as an entry.
pub(crate) fn test_entry<'a, L: WireLeaf>(
    field: &Split<'a>,
    spot: Spot,
) -> Result<GoodEntry<'a>, Fault>
    requires { spot.place + (3 + length field.now.contents.now) ≤ 65535 }
    ensures { FoundAs L.WireLeaf.wide L.WireLeaf.reading spot field.now result }
{
    let kind = kind_of(field.tag).ok_or(spot.in_row(Cause::WrongTag))?;
    if spot.entry >= MOST_ENTRIES {
        return Err(spot.in_row(Cause::TooMuch));
    }
    let contents = field.contents;
    let inner = Spot {
        place: spot.place + 3,
        entry: spot.entry,
    };
    let goals = close(kind, test_contents::<L>(contents, inner)?, spot)?;
    Ok(GoodEntry {
        kind,
        goals,
        spot: inner,
        contents,
    })
}
