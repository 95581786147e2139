use crate::step::Step;

// A call of a sitting, with the lengths of the lists that it is lent.
#[derive(PartialEq, Eq, Debug, Drop)]
pub enum Call<L> {
    Open,
    Leaf(L),
    Node {
        symbol: u16,
        args: Vec<u16>,
    },
    Equate {
        left: u16,
        right: u16,
        work: usize,
    },
    Compare {
        left: u16,
        right: u16,
        work: usize,
    },
    Solve {
        goals: Vec<u16>,
        budget: u32,
        room: usize,
        work: usize,
        frames: usize,
    },
    Check {
        goals: Vec<u16>,
        steps: Vec<Step>,
        work: usize,
        frames: usize,
    },
}
