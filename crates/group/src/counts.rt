/// What a seat of a group reports: how many of its places are below the target asked, and how many above it.
#[derive(Clone, Copy, Debug, PartialEq, Eq)]
pub struct Counts {
    pub below: u32,
    pub above: u32,
}
