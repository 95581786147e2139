ghost use Rattle.std.specs.Prelude.{◌≡◌, Some};
ghost use Rattle.form.specs.Numbers.{cause_number};
ghost use Rattle.form.specs.Words.{fault_words, layer_word};

use std::fmt;

// What is wrong with the bytes of a book. Each cause has a number.
#[derive(Clone, Copy, PartialEq, Eq, Debug)]
pub enum Cause {
    // a field runs past what encloses it
    PastEnd = 7,
    // a tag that may not stand there
    WrongTag,
    // a length that the tag does not allow
    WrongLength,
    // an argument that is no lower cell, or a head or goal that is no node
    WrongCell,
    // leaf bytes that the leaf kind refuses
    WrongLeaf,
    // a field after goals, an entry without goals, or a co-fact with a body
    WrongGoals,
    // too many bytes, cells or entries
    TooMuch,
}

impl Cause {
    // The number that stands for the cause.
    pub fn number(self) -> u8
        ensures { result ≡ cause_number self }
    {
        self as u8
    }
}

// Where a fault was found: in the row of entries, within an entry, or in a leaf's bytes.
#[derive(Clone, Copy, PartialEq, Eq, Debug)]
pub enum Layer {
    Book,
    Entry,
    Leaf,
}

impl fmt::Display for Layer {
    ghost output = { λ l. Some (layer_word l) };

    fn fmt<W: fmt::Write>(&self, f: &mut fmt::Formatter<W>) -> fmt::Result {
        f.write_str(match self {
            Layer::Book => "book",
            Layer::Entry => "entry",
            Layer::Leaf => "leaf",
        })
    }
}

// The first thing that is wrong: its cause, the place of the field's tag, how many good entries come before it, and the layer.
#[derive(Clone, Copy, PartialEq, Eq, Debug)]
pub struct Fault {
    pub cause: Cause,
    pub place: usize,
    pub entry: usize,
    pub layer: Layer,
}

impl fmt::Display for Fault {
    ghost output = { λ x. Some (fault_words x) };

    fn fmt<W: fmt::Write>(&self, f: &mut fmt::Formatter<W>) -> fmt::Result {
        let number = self.cause.number();
        let place = self.place;
        let entry = self.entry;
        let layer = self.layer;
        write!(
            f,
            "fault {number} place {place} entry {entry} layer {layer}"
        )
    }
}
