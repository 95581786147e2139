// What solve answers, unless it refuses: granted after so many tries, with so many steps in the record list, or failed.
#[derive(Clone, Copy, PartialEq, Eq, Debug)]
pub enum Solved {
    Granted { count: u32, steps: usize },
    Failed { count: u32 },
}
