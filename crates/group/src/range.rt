ghost use Rattle.std.specs.Prelude.{◌^◌, ◌<◌, ◌≤◌};

use crate::count_bounds::CountBounds;
use crate::counts::Counts;
use referees::verdict::GroupVerdict;

/// The places that a group still looks at, with both ends. There is no empty range.
#[derive(Clone, Copy, Debug, PartialEq, Eq)]
pub struct Range {
    pub from: u64,
    pub to: u64,
    ghost not_empty: { from ≤ to },
    ghost fits: { to < 2 ^ 64 },
}

impl Range {
    ghost use Rattle.std.specs.Prelude.{◌≡◌};
    ghost use Rattle.group.specs.Ranges.{target, LeavesPlace};
    ghost use Rattle.group.specs.SeatRules.{keeps_rules};
    ghost use Rattle.group.specs.NarrowedRange.{Follows, IsOver, Narrows};

    /// The range from `lo` to `hi`, or none where that is empty.
    pub(crate) fn over(lo: u64, hi: u64) -> Option<Range>
        ensures { IsOver lo hi result }
    {
        if lo > hi {
            return None;
        }
        Some(Range { from: lo, to: hi })
    }

    /// The target: the middle, rounded up. The ends are not added, since their sum may not fit.
    pub fn target(self) -> u64
        ensures { result ≡ target self.from self.to }
    {
        self.from + (self.to - self.from).div_ceil(2)
    }

    /// The range that a verdict on the target leaves. Where it would be empty, which no accepted reports bring about, the
    /// end that would pass the other stays at it.
    pub(crate) fn narrowed(self, verdict: GroupVerdict) -> Range
        ensures narrows { Narrows self verdict result }
        ensures follows { LeavesPlace verdict self.from self.to → Follows self verdict result }
    {
        let target = self.target();
        match verdict {
            GroupVerdict::Lower => Range {
                from: self.from,
                to: target.saturating_sub(1).max(self.from),
            },
            GroupVerdict::Higher => Range {
                from: target.saturating_add(1).min(self.to),
                to: self.to,
            },
            GroupVerdict::Done => self,
        }
    }

    /// Whether a seat can have these counts at the target: the five rules, by what is known of the seat.
    pub(crate) fn keeps_rules(self, seat: CountBounds, counts: Counts) -> bool
        ensures { result ≡ keeps_rules self.from self.to seat counts }
    {
        let target = self.target();
        counts.below as u64 + counts.above as u64 <= seat.declared as u64
            && seat.low <= counts.below
            && seat.high <= counts.above
            && (target != self.from || counts.below == seat.low)
            && (target != self.to || counts.above == seat.high)
    }
}
