ghost use Rattle.std.specs.Prelude.{◌+◌, ◌≤◌, IfSome, ◌≡◌};
ghost use Rattle.elements.specs.Limits.{longest_list};
ghost use Rattle.std.proofs.Props.{props};
ghost use Rattle.group.specs.SeatRules.{bounds_after};

use crate::count_bounds::CountBounds;
use crate::counts::Counts;
use crate::range::Range;
use elements::limits::LONGEST_LIST;
use faults::refusal::Refusal;
use referees::verdict::GroupVerdict;

/// What is known of a seat, and the counts that it has reported in this round, if it has. No declared length is over
/// 65,536, and the counts fit in it, so that a table's add up to numbers of 32 bits.
#[derive(Clone, Copy, PartialEq, Eq)]
pub struct SeatState {
    pub known: CountBounds,
    pub given: Option<Counts>,
    ghost short: { known.declared ≤ longest_list },
    ghost fits: { IfSome given (λ counts. counts.below + counts.above ≤ known.declared) } by { Prim.hlevel props },
}

impl SeatState {
    ghost use Rattle.group.specs.SeatStates.{IsNewSeat, IsAfter};
    ghost use Rattle.group.specs.SeatCalls.{TakesCounts};

    /// The state of a seat that has declared a length, before any round, or none where that is too long.
    pub(crate) fn new(declared: u32) -> Option<SeatState>
        ensures { IsNewSeat declared result }
    {
        if declared > LONGEST_LIST {
            return None;
        }
        let known = CountBounds {
            declared,
            low: 0,
            high: 0,
        };
        Some(SeatState { known, given: None })
    }

    /// Takes counts that its seat reports at the target of a range.
    pub(crate) fn report(&mut self, range: Range, counts: Counts) -> Result<(), Refusal>
        ensures { TakesCounts range counts self.old self.new result }
    {
        if self.given.is_some() {
            return Err(Refusal::NotItsTurn);
        }
        if !range.keeps_rules(self.known, counts) {
            return Err(Refusal::Impossible);
        }
        self.given = Some(counts);
        Ok(())
    }

    /// Goes on by a verdict: what the seat gave has shown more of it, and it has given nothing yet.
    pub(crate) fn learn(&mut self, verdict: GroupVerdict)
        ensures { IsAfter verdict self.old self.new }
    {
        if let Some(counts) = self.given {
            self.known = learned(self.known, verdict, counts);
            self.given = None;
        }
    }
}

/// What is known of a seat after a verdict, from the counts that it gave.
fn learned(known: CountBounds, verdict: GroupVerdict, counts: Counts) -> CountBounds
    ensures exact { result ≡ bounds_after verdict known counts }
    ensures same_length { result.declared ≡ known.declared }
{
    let CountBounds {
        declared,
        low,
        high,
    } = known;
    match verdict {
        GroupVerdict::Lower => CountBounds {
            declared,
            low,
            high: declared.saturating_sub(counts.below),
        },
        GroupVerdict::Higher => CountBounds {
            declared,
            low: declared.saturating_sub(counts.above),
            high,
        },
        GroupVerdict::Done => known,
    }
}
