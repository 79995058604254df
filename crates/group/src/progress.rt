ghost use Rattle.std.specs.Prelude.{◌≡◌};
ghost use Rattle.runs.specs.Answers.{AsksOne};
ghost use Rattle.group.specs.GroupCalls.{moved_state, progress_of, state_of, step_asks, IsStageAfter, Reports};

use crate::counts::Counts;
use crate::group_seats::GroupSeats;
use crate::range::Range;
use crate::run::{Run, StagedRun};
use elements::ordered::Ordered;
use faults::fault::RunFault;
use faults::refusal::Refusal;
use faults::seat::Seat;
use referees::referee::Referee;
use referees::sums::Sums;
use referees::verdict::GroupVerdict;
use runs::stage::{Closing, Comparing};
use std::marker::PhantomData;

/// How far a run has come, in either stage: its rank, the range that it was opened with and what is left of it, the number of
/// verdicts made, and its seats.
#[derive(Clone, Copy, PartialEq, Eq)]
pub struct Progress {
    pub(crate) rank: u32,
    pub(crate) limits: Range,
    pub(crate) range: Range,
    pub(crate) made: u32,
    pub(crate) seats: GroupSeats,
}

impl Progress {
    /// Takes what a seat reports at the target.
    pub(crate) fn report(&mut self, number: u32, counts: Counts) -> Result<(), RunFault>
        ensures { Reports number counts self.old result self.new }
    {
        self.seats.report(self.range, number, counts).map_err(|refusal| RunFault::Own(
            refusal,
            Some(Seat::Numbered(number)),
        ))
    }

    /// Has a referee weigh the sums of what the seats have reported.
    pub(crate) fn ask<T: Ordered, R: Referee<T>>(
        &self,
        referee: &mut R,
    ) -> Result<GroupVerdict, RunFault>
        ensures answers { result ≡ step_asks (state_of self.now) (R.Stocked.stock referee.old) }
        ensures asks { AsksOne R.Stocked.stock R.Referee.spends referee.old referee.new result }
    {
        let Counts { below, above } = self
            .seats
            .sums()
            .ok_or(RunFault::Own(Refusal::ReportMissing, None))?;
        let sums = Sums {
            below,
            above,
            k: self.rank,
            n: self.seats.total(),
        };
        referee.weigh(sums)
    }

    /// Goes on by a verdict.
    pub(crate) fn advance(&mut self, verdict: GroupVerdict)
        ensures { state_of self.new ≡ moved_state verdict (state_of self.old) }
    {
        self.range = self.range.narrowed(verdict);
        self.made = self.made.saturating_add(1);
        self.seats.advance(verdict);
    }

    /// The run in the stage that a verdict calls for.
    pub(crate) fn staged<T>(self, verdict: GroupVerdict) -> StagedRun<T>
        ensures stage { IsStageAfter verdict result }
        ensures progress { progress_of result ≡ self }
    {
        match verdict {
            GroupVerdict::Done => StagedRun::Closing(Run {
                progress: self,
                stage: Closing {},
                elements: PhantomData,
            }),
            GroupVerdict::Lower | GroupVerdict::Higher => StagedRun::Comparing(Run {
                progress: self,
                stage: Comparing {},
                elements: PhantomData,
            }),
        }
    }
}
