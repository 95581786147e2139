// The tags of fields.
ghost use Rattle.std.specs.Prelude.{◌≡◌, None, MatchResult};
ghost use Rattle.form.specs.Forms.{entry_tag};
ghost use Rattle.form.specs.Meanings.{entry_kind, shape};
ghost use Rattle.book.specs.Answers.{kind_of};
ghost use Rattle.wire.specs.Tags.{tag_number};

use book::entry::EntryKind;

// What a field is: an entry of the book's row, or a cell or the goals of an entry. Each has a number.
#[derive(Clone, Copy, PartialEq, Eq, Debug)]
pub enum Tag {
    Clause = 1,
    CoFact,
    Variable = 16,
    Leaf,
    Node,
    Goals,
}

// A number that is no tag's.
#[derive(Clone, Copy, PartialEq, Eq, Debug)]
pub struct NoTag;

// The number that stands for the tag.
impl From<Tag> for u8 {
    ghost from_gives = { λ tag number. number ≡ tag_number tag };

    fn from(tag: Tag) -> u8 {
        tag as u8
    }
}

// The tag that the number stands for.
impl TryFrom<u8> for Tag {
    type Error = NoTag;

    ghost try_from_gives = { λ number read. MatchResult read (λ tag. number ≡ tag_number tag) (λ _. (entry_kind number ≡ None) × (shape number ≡ None)) };

    fn try_from(number: u8) -> Result<Tag, NoTag> {
        match number {
            1 => Ok(Tag::Clause),
            2 => Ok(Tag::CoFact),
            16 => Ok(Tag::Variable),
            17 => Ok(Tag::Leaf),
            18 => Ok(Tag::Node),
            19 => Ok(Tag::Goals),
            _ => Err(NoTag),
        }
    }
}

impl From<EntryKind> for Tag {
    ghost from_gives = { λ kind tag. tag_number tag ≡ entry_tag (kind_of kind) };

    fn from(kind: EntryKind) -> Tag {
        match kind {
            EntryKind::Clause => Tag::Clause,
            EntryKind::CoFact => Tag::CoFact,
        }
    }
}
