// A text cut into pieces at each byte of one value: lines at byte 10, words at spaces.
ghost use Rattle.std.specs.Prelude.{◌≡◌};
ghost use Rattle.script.specs.Pieces.{CutAt, to_come};
ghost use Rattle.std.specs.Iterator.{at_most};

// What stands before the first such byte, and what stands behind it, if there is one.
pub fn cut(text: &[u8], at: u8) -> (&[u8], Option<&[u8]>)
    ensures { CutAt at text.now result.0 result.1 }
{
    match text.iter().position(|byte| *byte == at) {
        Some(i) => (&text[..i], Some(&text[i + 1..])),
        None => (text, None),
    }
}

// The pieces of a text that are still to come, in order. There is one more than there are bytes to cut at. A slice's
// own `split` has its closure in its type, so all that hold or take words would be generic over it.
#[derive(Drop)]
pub struct Pieces<'a> {
    rest: Option<&'a [u8]>,
    at: u8,
}

impl<'a> Pieces<'a> {
    // The pieces of the text, cut at each such byte.
    pub fn of(text: &'a [u8], at: u8) -> Pieces<'a> {
        Pieces {
            rest: Some(text),
            at,
        }
    }
}

impl<'a> Iterator for Pieces<'a> {
    type Item = &'a [u8];

    ghost remaining = { λ s. at_most (to_come s.rest) };

    fn next(&mut self) -> Option<&'a [u8]> {
        let (piece, rest) = cut(self.rest?, self.at);
        self.rest = rest;
        Some(piece)
    }
}
