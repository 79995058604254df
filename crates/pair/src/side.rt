ghost use Rattle.std.specs.Prelude.{◌≡◌};
ghost use Rattle.pair.specs.Sides.{seat_of};
ghost use Rattle.pair.specs.Bisection.{moves};

use faults::seat::Seat;
use referees::verdict::PairVerdict;

/// One of the two seats of a pair.
#[derive(Clone, Copy, Debug, PartialEq, Eq)]
pub enum Side {
    A,
    B,
}

impl Side {
    /// Whether a verdict moves this side's window up.
    pub(crate) fn moves(self, verdict: PairVerdict) -> bool
        ensures { result ≡ moves self verdict }
    {
        match self {
            Side::A => verdict == PairVerdict::Before,
            Side::B => verdict == PairVerdict::NotBefore,
        }
    }
}

/// The seat as a fault names it.
impl From<Side> for Seat {
    ghost from_gives = { λ side seat. seat ≡ seat_of side };

    fn from(side: Side) -> Seat {
        match side {
            Side::A => Seat::A,
            Side::B => Seat::B,
        }
    }
}
