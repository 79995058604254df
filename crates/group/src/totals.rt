ghost use Rattle.std.specs.Prelude.{◌≡◌, ◌+◌, ◌<◌, ◌^◌};
ghost use Rattle.group.specs.SeatTotals.{added};

/// What the states of some seats add up to: how many seats have given their counts in this round, and the sums of these.
#[derive(Clone, Copy, PartialEq, Eq)]
pub(crate) struct Totals {
    pub given: u32,
    pub below: u32,
    pub above: u32,
}

impl Totals {
    /// The totals of no states: nothing given, and sums of 0.
    pub(crate) fn none() -> Totals
        ensures { result ≡ record { given = 0; below = 0; above = 0 } }
    {
        Totals {
            given: 0,
            below: 0,
            above: 0,
        }
    }

    /// What both add up to.
    pub(crate) fn with(self, other: Totals) -> Totals
        requires given { self.given + other.given < 2 ^ 32 }
        requires below { self.below + other.below < 2 ^ 32 }
        requires above { self.above + other.above < 2 ^ 32 }
        ensures { result ≡ added self other }
    {
        Totals {
            given: self.given + other.given,
            below: self.below + other.below,
            above: self.above + other.above,
        }
    }
}
