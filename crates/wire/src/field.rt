use crate::spot::Spot;

// A field of an entry, with where its tag stands in the book. Its contents are borrowed from the book's bytes.
#[derive(Clone, Copy)]
pub enum Field<'a> {
    Variable {
        spot: Spot,
    },
    Leaf {
        spot: Spot,
        bytes: &'a [u8],
    },
    Node {
        spot: Spot,
        symbol: u16,
        args: &'a [u8],
    },
    Goals {
        spot: Spot,
        head: u8,
        body: &'a [u8],
    },
}

// A field before its tag is looked at, and the bytes that follow it.
#[derive(Clone, Copy)]
pub struct Split<'a> {
    pub tag: u8,
    pub contents: &'a [u8],
    pub rest: &'a [u8],
}
