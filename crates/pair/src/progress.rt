ghost use Rattle.std.specs.Prelude.{◌≡◌};
ghost use Rattle.pair.specs.SeatStates.{state_of_side};
ghost use Rattle.pair.specs.PairCalls.{report_refusal, Reports, with_given, both_reports, step_asks, finish_asks, stage_of, Moves};
ghost use Rattle.runs.specs.Answers.{AsksOne};

use crate::run::{Run, StagedRun};
use crate::seat_state::SeatState;
use crate::side::Side;
use crate::window::Window;
use elements::entry::Entry;
use elements::ordered::Ordered;
use faults::fault::{RunFault, unless_refused};
use faults::refusal::Refusal;
use referees::referee::{Referee, ask_first, ask_lesser};
use referees::verdict::PairVerdict;
use runs::stage::{Closing, Comparing};

/// How far a run has come, in either stage: its window, the number of verdicts made, and the state of each seat.
#[derive(Clone, Copy, PartialEq, Eq)]
pub struct Progress<T> {
    pub window: Window,
    pub made: u32,
    pub a: SeatState<T>,
    pub b: SeatState<T>,
}

impl<T: Ordered> Progress<T> {
    /// The state of a side's seat.
    fn seat_state(&self, side: Side) -> SeatState<T>
        ensures { result ≡ state_of_side side self.now }
    {
        match side {
            Side::A => self.a,
            Side::B => self.b,
        }
    }

    /// Why a report is refused, if it is.
    fn report_refusal(&self, side: Side, entry: Entry<T>) -> Option<Refusal>
        ensures { result ≡ report_refusal T.Ordered.before side entry self.now }
    {
        let seat = self.seat_state(side);
        if seat.given.is_some() {
            return Some(Refusal::NotItsTurn);
        }
        if !self.window.passes(side, seat.declared, seat.bounds, entry) {
            return Some(Refusal::Impossible);
        }
        None
    }

    /// Writes a report down.
    fn put(&mut self, side: Side, entry: Entry<T>)
        ensures { self.new ≡ with_given side entry self.old }
    {
        match side {
            Side::A => self.a = self.a.with(entry),
            Side::B => self.b = self.b.with(entry),
        }
    }

    /// Takes what a seat reports at the place that it is asked for.
    pub(crate) fn report(&mut self, side: Side, entry: Entry<T>) -> Result<(), RunFault>
        ensures { Reports T.Ordered.before side entry self.old result self.new }
    {
        unless_refused(self.report_refusal(side, entry), Some(side.into()))?;
        self.put(side, entry);
        Ok(())
    }

    /// What both seats have reported in this round, if both have.
    fn reports(&self) -> Option<(Entry<T>, Entry<T>)>
        ensures { result ≡ both_reports self.now }
    {
        Some((self.a.given?, self.b.given?))
    }

    /// Asks a referee which report is before the other, marks as elements.
    pub(crate) fn ask_first<R: Referee<T>>(&self, referee: &mut R) -> Result<PairVerdict, RunFault>
        ensures answers { result ≡ step_asks T.Ordered.before self.now (R.Stocked.stock referee.old) }
        ensures asks { AsksOne R.Stocked.stock R.Referee.spends referee.old referee.new result }
    {
        let (a, b) = self
            .reports()
            .ok_or(RunFault::Own(Refusal::ReportMissing, None))?;
        ask_first(referee, a, b)
    }

    /// Asks a referee for the lesser of both reports.
    pub(crate) fn ask_lesser<R: Referee<T>>(&self, referee: &mut R) -> Result<Entry<T>, RunFault>
        ensures answers { result ≡ finish_asks T.Ordered.before self.now (R.Stocked.stock referee.old) }
        ensures asks { AsksOne R.Stocked.stock R.Referee.spends referee.old referee.new result }
    {
        let (a, b) = self
            .reports()
            .ok_or(RunFault::Own(Refusal::ReportMissing, None))?;
        ask_lesser(referee, a, b)
    }

    /// The progress after a verdict.
    pub(crate) fn after(self, verdict: PairVerdict) -> Progress<T>
        ensures { Moves self verdict result }
    {
        Progress {
            window: self.window.halved(verdict),
            made: self.made.saturating_add(1),
            a: self.a.after(Side::A, verdict),
            b: self.b.after(Side::B, verdict),
        }
    }

    /// The run in the stage that its window calls for.
    pub(crate) fn staged(self) -> StagedRun<T>
        ensures { result ≡ stage_of self }
    {
        if self.window.size == 1 {
            StagedRun::Closing(Run {
                progress: self,
                stage: Closing {},
            })
        } else {
            StagedRun::Comparing(Run {
                progress: self,
                stage: Comparing {},
            })
        }
    }
}
