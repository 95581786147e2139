// How a search ends.

// Why a search ends without a record.
#[derive(Clone, Copy, PartialEq, Eq, Debug)]
pub enum Ending {
    Failed,
    Spent,
    Full,
    Short,
}

// How a search ended, after how many tries, with how many steps, and with how many cells in use.
#[derive(Clone, Copy)]
pub struct Finish {
    pub ending: Result<(), Ending>,
    pub count: u32,
    pub depth: usize,
    pub used: usize,
}
