// The cells of a slate.
ghost use Rattle.std.specs.Prelude.{◌≡◌, None};
ghost use Rattle.cells.specs.Cells.{kind_of, arguments_of, Counted};

// What was written into a cell: nothing, so that it is open, a leaf, or a node over other cells.
#[derive(Clone, Copy)]
pub enum Content<L> {
    Open,
    Leaf(L),
    // The first so many of the four places count: a cell is copied and owns nothing, so no list of its own can hold them.
    // Supplied cells may say that more count, so that few do is asked for in clauses, and no fact of the type.
    Node {
        symbol: u16,
        arguments: [u16; 4],
        count: u8,
    },
}

impl<L> Content<L> {
    // The cells that a node was written over; nothing else has any.
    pub(crate) fn arguments(&self) -> &[u16]
        requires { Counted self.now }
        ensures { result.now ≡ arguments_of self.now }
    {
        match self {
            Content::Node {
                arguments,
                count,
                ..
            } => {
                let places: &[u16] = arguments;
                &places[..*count as usize]
            }
            _ => &[],
        }
    }
}

// A cell keeps what was written into it; it may be joined to another cell, and then has the same tree.
#[derive(Clone, Copy)]
pub struct Cell<L> {
    pub content: Content<L>,
    pub joined: Option<u16>,
}

// A cell is written unjoined.
impl<L> From<Content<L>> for Cell<L> {
    ghost from_gives = { λ content cell. cell ≡ record { content = content; joined = None } };

    fn from(content: Content<L>) -> Cell<L> {
        Cell {
            content,
            joined: None,
        }
    }
}

// What a cell is: open, a leaf, a node, or joined to another cell.
#[derive(Clone, Copy, PartialEq, Eq, Debug)]
pub enum CellKind {
    Open,
    Leaf,
    Node,
    Joined,
}

impl<L> Cell<L> {
    // Tells what the cell is.
    pub fn kind(&self) -> CellKind
        ensures { result ≡ kind_of self.now }
    {
        match (self.joined, &self.content) {
            (Some(_), _) => CellKind::Joined,
            (None, Content::Open) => CellKind::Open,
            (None, Content::Leaf(_)) => CellKind::Leaf,
            (None, Content::Node { .. }) => CellKind::Node,
        }
    }
}
