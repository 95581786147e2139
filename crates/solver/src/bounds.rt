// What a search must keep within: so many tries, so many steps, and so many cells on the slate, of which the first so
// many were in use when it began.
#[derive(Clone, Copy)]
pub struct Bounds {
    pub budget: u32,
    pub steps: usize,
    pub cells: usize,
    pub first: usize,
}
