ghost use Rattle.std.specs.Prelude.{Some};
ghost use Rattle.referees.specs.Verdicts.{sums_text};

use std::fmt;

/// What a group's question weighs: how many places are below the one asked about and how many above, the rank, and how
/// many elements there are.
#[derive(Clone, Copy, Debug, PartialEq, Eq)]
pub struct Sums {
    pub below: u32,
    pub above: u32,
    pub k: u32,
    pub n: u32,
}

impl fmt::Display for Sums {
    ghost output = { λ x. Some (sums_text x) };

    fn fmt<W: fmt::Write>(&self, f: &mut fmt::Formatter<W>) -> fmt::Result {
        let Sums { below, above, k, n } = self;
        write!(f, "sum below {below}, sum above {above}, k {k}, n {n}")
    }
}
