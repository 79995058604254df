/// What a group knows of a seat while its range is `a` to `b`: the declared length of its list, how many of its places are
/// below `a`, and how many are above `b`.
#[derive(Clone, Copy, PartialEq, Eq)]
pub struct CountBounds {
    pub declared: u32,
    pub low: u32,
    pub high: u32,
}
