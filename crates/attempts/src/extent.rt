// How far a search has filled the lists that it was lent: the cells in use, and the joins on the trail.
#[derive(Clone, Copy)]
pub struct Extent {
    pub used: usize,
    pub trail: usize,
}
