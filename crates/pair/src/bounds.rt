ghost use Rattle.std.specs.Prelude.{◌≡◌};
ghost use Rattle.pair.specs.SeatBounds.{bounds_after, widest};

use crate::side::Side;
use elements::entry::Entry;
use elements::ordered::Ordered;
use referees::verdict::PairVerdict;

/// The two entries of a seat that bound its next report: the one reported at the window's offset, and the one reported
/// at its end. Where nothing was reported, at the ends of the row, below and above stand in.
#[derive(Clone, Copy, PartialEq, Eq)]
pub struct Bounds<T> {
    pub low: Entry<T>,
    pub high: Entry<T>,
}

impl<T: Ordered> Bounds<T> {
    /// The bounds before any report.
    pub(crate) fn widest() -> Bounds<T>
        ensures { result ≡ widest }
    {
        Bounds {
            low: Entry::Below,
            high: Entry::Above,
        }
    }

    /// The bounds of a side after a verdict on the entry that it reported at the place asked.
    pub(crate) fn after(self, side: Side, verdict: PairVerdict, entry: Entry<T>) -> Bounds<T>
        ensures { result ≡ bounds_after side verdict entry self }
    {
        if side.moves(verdict) {
            Bounds {
                low: entry,
                high: self.high,
            }
        } else {
            Bounds {
                low: self.low,
                high: entry,
            }
        }
    }
}
