ghost use Rattle.std.specs.Prelude.{◌≡◌};
ghost use Rattle.pair.specs.SeatStates.{new_seat, seat_reporting, seat_after};

use crate::bounds::Bounds;
use crate::side::Side;
use elements::entry::Entry;
use elements::ordered::Ordered;
use referees::verdict::PairVerdict;

/// The state of one seat: the declared length of its list, the bounds that its earlier reports leave it, and the
/// entry that it has reported in this round, if it has.
#[derive(Clone, Copy, PartialEq, Eq)]
pub struct SeatState<T> {
    pub declared: u32,
    pub bounds: Bounds<T>,
    pub given: Option<Entry<T>>,
}

impl<T: Ordered> SeatState<T> {
    /// A seat that has declared a length, before any report.
    pub(crate) fn new(declared: u32) -> SeatState<T>
        ensures { result ≡ new_seat declared }
    {
        SeatState {
            declared,
            bounds: Bounds::widest(),
            given: None,
        }
    }

    /// The same with a report in this round.
    pub(crate) fn with(self, entry: Entry<T>) -> SeatState<T>
        ensures { result ≡ seat_reporting entry self }
    {
        SeatState {
            declared: self.declared,
            bounds: self.bounds,
            given: Some(entry),
        }
    }

    /// The same after a verdict: what it has reported is now one of its bounds.
    pub(crate) fn after(self, side: Side, verdict: PairVerdict) -> SeatState<T>
        ensures { result ≡ seat_after side verdict self }
    {
        let SeatState {
            declared,
            bounds,
            given,
        } = self;
        SeatState {
            declared,
            bounds: match given {
                Some(entry) => bounds.after(side, verdict, entry),
                None => bounds,
            },
            given: None,
        }
    }
}
