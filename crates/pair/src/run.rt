ghost use Rattle.std.specs.Prelude.{◌≡◌};
ghost use Rattle.pair.specs.PairCalls.{element_of, BreaksOff, Reports, step_answer, Steps, finish_answer, Finishes};
ghost use Rattle.pair.specs.PairCalls.{progress_of_run, stage_of_run, progress_of, with_progress};
ghost use Rattle.runs.specs.Answers.{AsksOne};

use crate::progress::Progress;
use crate::side::Side;
use crate::window::Window;
use elements::entry::Entry;
use elements::ordered::Ordered;
use faults::fault::RunFault;
use referees::referee::Referee;
use referees::verdict::PairVerdict;
use runs::finished::Finished;
use runs::refused::Refused;
use runs::slip::Slip;
use runs::stage::{Closing, Comparing, Stage};

/// The run of a pair in one of two stages: what both take is written once for them. It is moved from call to call, so that
/// nothing but the last one is left to be asked.
#[derive(Drop)]
pub struct Run<T, S: Stage> {
    pub(crate) progress: Progress<T>,
    pub(crate) stage: S,
}

/// The key of a pair's slips and results; only the calls here make it.
#[derive(Clone, Copy, PartialEq, Eq)]
pub struct OfPair {
    pub(crate) made_here: (),
}

/// A run in whichever stage it is. It takes what both stages take; to step it or to finish it, match on its stage.
#[derive(Drop)]
pub enum StagedRun<T> {
    Comparing(Run<T, Comparing>),
    Closing(Run<T, Closing>),
}

/// What an accepted step comes to: the verdict, and the run in the stage that follows.
#[derive(Drop)]
pub struct Advanced<T> {
    pub verdict: PairVerdict,
    pub run: StagedRun<T>,
}

/// The element of an entry. No run ends with a mark: the law of its histories says so, and the sample is never handed out.
fn element_of<T: Ordered>(entry: Entry<T>) -> T
    ensures { result ≡ element_of T.Ordered.sample entry }
{
    match entry {
        Entry::Element(element) => element,
        Entry::Below | Entry::Above => T::sample(),
    }
}

impl<T: Ordered, S: Stage> Run<T, S> {
    /// The window, which says what place a side is asked for.
    pub fn window(&self) -> Window
        ensures { result ≡ (progress_of_run self.now).window }
    {
        self.progress.window
    }

    /// Takes what a seat reports at the place that it is asked for.
    pub fn report(&mut self, side: Side, entry: Entry<T>) -> Result<(), RunFault>
        ensures reports { Reports T.Ordered.before side entry (progress_of_run self.old) result (progress_of_run self.new) }
        ensures same_stage { stage_of_run self.new ≡ stage_of_run self.old }
    {
        self.progress.report(side, entry)
    }

    /// Ends the run with no result, and answers the number of verdicts made.
    pub fn break_off(self, slip: Slip<OfPair, T>) -> u32
        ensures { BreaksOff (progress_of_run self) result }
    {
        slip.take_back(OfPair { made_here: () });
        self.progress.made
    }
}

impl<T: Ordered> Run<T, Comparing> {
    /// Asks the referee about both reports, and goes on by its verdict.
    pub fn step<R: Referee<T>>(
        self,
        referee: &mut R,
    ) -> Result<Advanced<T>, Refused<Run<T, Comparing>>>
        ensures steps { Steps T.Ordered.before self (R.Stocked.stock referee.old) result }
        ensures asks { AsksOne R.Stocked.stock R.Referee.spends referee.old referee.new (step_answer result) }
    {
        match self.progress.ask_first(referee) {
            Ok(verdict) => Ok(Advanced {
                verdict,
                run: self.progress.after(verdict).staged(),
            }),
            Err(fault) => Err(Refused { fault, given: self }),
        }
    }
}

impl<T: Ordered> Run<T, Closing> {
    /// Asks the referee for the lesser of both reports, which is the result.
    pub fn finish<R: Referee<T>>(
        self,
        referee: &mut R,
        slip: Slip<OfPair, T>,
    ) -> Result<Finished<OfPair, T>, Refused<(Run<T, Closing>, Slip<OfPair, T>)>>
        ensures finishes { Finishes T.Ordered.before T.Ordered.sample self slip (R.Stocked.stock referee.old) result }
        ensures asks { AsksOne R.Stocked.stock R.Referee.spends referee.old referee.new (finish_answer result) }
    {
        match self.progress.ask_lesser(referee) {
            Ok(lesser) => Ok(Finished::issue(
                OfPair { made_here: () },
                element_of(lesser),
                self.break_off(slip),
            )),
            Err(fault) => Err(Refused {
                fault,
                given: (self, slip),
            }),
        }
    }
}

impl<T: Ordered> StagedRun<T> {
    /// The window, as in each stage.
    pub fn window(&self) -> Window
        ensures { result ≡ (progress_of self.now).window }
    {
        match self {
            StagedRun::Comparing(run) => run.window(),
            StagedRun::Closing(run) => run.window(),
        }
    }

    /// Takes a report, as in each stage, and stays in its own.
    pub fn report(&mut self, side: Side, entry: Entry<T>) -> Result<(), RunFault>
        ensures reports { Reports T.Ordered.before side entry (progress_of self.old) result (progress_of self.new) }
        ensures same_stage { self.new ≡ with_progress (progress_of self.new) self.old }
    {
        match self {
            StagedRun::Comparing(run) => run.report(side, entry),
            StagedRun::Closing(run) => run.report(side, entry),
        }
    }

    /// Ends the run with no result, as in each stage.
    pub fn break_off(self, slip: Slip<OfPair, T>) -> u32
        ensures { BreaksOff (progress_of self) result }
    {
        match self {
            StagedRun::Comparing(run) => run.break_off(slip),
            StagedRun::Closing(run) => run.break_off(slip),
        }
    }
}
