ghost use Rattle.group.specs.GroupCalls.{progress_of_run, progress_of, limits_of, range_of, IsElementAt, BreaksOff, step_answer, Reports, Steps, Finishes};
ghost use Rattle.std.specs.Prelude.{◌≡◌};
ghost use Rattle.runs.specs.Answers.{AsksOne};

use crate::counts::Counts;
use crate::progress::Progress;
use crate::range::Range;
use elements::ordered::Ordered;
use elements::placed::Placed;
use faults::fault::RunFault;
use referees::referee::Referee;
use referees::verdict::GroupVerdict;
use runs::finished::Finished;
use runs::refused::Refused;
use runs::slip::Slip;
use runs::stage::{Closing, Comparing, Stage};
use std::marker::PhantomData;

/// The run of a group over elements of `T`, in one of two stages. It is moved from call to call, so that nothing but the last
/// one is left to be asked.
#[derive(Drop)]
pub struct Run<T, S: Stage> {
    pub(crate) progress: Progress,
    pub(crate) stage: S,
    pub(crate) elements: PhantomData<T>,
}

/// The key of a group's slips and results; only the calls here make one.
#[derive(Clone, Copy, PartialEq, Eq)]
pub struct OfGroup {
    pub(crate) made_here: (),
}

/// A run in whichever stage it is.
#[derive(Drop)]
pub enum StagedRun<T> {
    Comparing(Run<T, Comparing>),
    Closing(Run<T, Closing>),
}

/// What an accepted step comes to: the verdict, and the run in the stage that follows.
#[derive(Drop)]
pub struct Advanced<T> {
    pub verdict: GroupVerdict,
    pub run: StagedRun<T>,
}

/// The element at a place. No run ends at a number that is no place: the law of its histories says so, and the sample is never
/// handed out.
fn element_at<T: Placed>(place: u64) -> T
    ensures { IsElementAt T.Placed.place T.Placed.LOWEST T.Placed.HIGHEST T.Ordered.sample place result }
{
    T::at_place(place).unwrap_or(T::sample())
}

/// What both stages take, so that a program need not look which of them it is.
impl<T: Placed> StagedRun<T> {
    /// The range of places that the run was opened with, where every element of every list is.
    pub fn limits(&self) -> Range
        ensures { result ≡ limits_of (progress_of self.now) }
    {
        match self {
            StagedRun::Comparing(run) => run.limits(),
            StagedRun::Closing(run) => run.limits(),
        }
    }

    /// What is left of it. In the closing stage its target is the place of the result.
    pub fn range(&self) -> Range
        ensures { result ≡ range_of (progress_of self.now) }
    {
        match self {
            StagedRun::Comparing(run) => run.range(),
            StagedRun::Closing(run) => run.range(),
        }
    }

    /// Ends the run with no result, and answers the number of verdicts made.
    pub fn break_off(self, slip: Slip<OfGroup, T>) -> u32
        ensures { BreaksOff (progress_of self) result }
    {
        match self {
            StagedRun::Comparing(run) => run.break_off(slip),
            StagedRun::Closing(run) => run.break_off(slip),
        }
    }
}

impl<T: Placed, S: Stage> Run<T, S> {
    /// The range of places that the run was opened with, where every element of every list is.
    pub fn limits(&self) -> Range
        ensures { result ≡ limits_of (progress_of_run self.now) }
    {
        self.progress.limits
    }

    /// What is left of it, which gives the target that every seat is asked for.
    pub fn range(&self) -> Range
        ensures { result ≡ range_of (progress_of_run self.now) }
    {
        self.progress.range
    }

    /// Ends the run with no result, and answers the number of verdicts made.
    pub fn break_off(self, slip: Slip<OfGroup, T>) -> u32
        ensures { BreaksOff (progress_of_run self) result }
    {
        slip.take_back(OfGroup { made_here: () });
        self.progress.made
    }
}

impl<T: Placed> Run<T, Comparing> {
    /// Takes what a seat, numbered from 1, reports at the target: how many of its places are below, and above.
    pub fn report(&mut self, number: u32, counts: Counts) -> Result<(), RunFault>
        ensures reports { Reports number counts (progress_of_run self.old) result (progress_of_run self.new) }
    {
        self.progress.report(number, counts)
    }

    /// Has the referee weigh the sums of all reports, and goes on by its verdict.
    pub fn step<R: Referee<T>>(
        mut self,
        referee: &mut R,
    ) -> Result<Advanced<T>, Refused<Run<T, Comparing>>>
        ensures steps { Steps self (R.Stocked.stock referee.old) result }
        ensures asks { AsksOne R.Stocked.stock R.Referee.spends referee.old referee.new (step_answer result) }
    {
        match self.progress.ask(referee) {
            Ok(verdict) => {
                self.progress.advance(verdict);
                Ok(Advanced {
                    verdict,
                    run: self.progress.staged(verdict),
                })
            }
            Err(fault) => Err(Refused { fault, given: self }),
        }
    }
}

impl<T: Placed> Run<T, Closing> {
    /// Hands out the element at the target, and the number of verdicts. It asks nobody.
    pub fn finish(self, slip: Slip<OfGroup, T>) -> Finished<OfGroup, T>
        ensures { Finishes T.Placed.place T.Placed.LOWEST T.Placed.HIGHEST T.Ordered.sample (progress_of_run self) result }
    {
        let element = element_at(self.range().target());
        Finished::issue(OfGroup { made_here: () }, element, self.break_off(slip))
    }
}
