ghost use Rattle.std.specs.Prelude.{◌≡◌, ◌-◌, length, slice_set};
ghost use Rattle.seats.specs.HonestRuns.{NotesVerdicts, IsHonestRun};
ghost use Rattle.referees.specs.Plays.{SpendsEach};
ghost use Rattle.elements.specs.Limits.{saturated};
ghost use Rattle.pair.specs.Bisection.{by_side};
ghost use Rattle.seats.specs.HonestRounds.{ReportsOne, ReportsBoth, Compares, Closes};
ghost use Rattle.runs.specs.Answers.{AsksOne};
ghost use Rattle.pair.specs.PairCalls.{step_answer, finish_answer, progress_of_run};

use crate::pair_seat::report_of_pair;
use elements::limits::saturated;
use elements::ordered::Ordered;
use faults::fault::RunFault;
use pair::opening::open;
use pair::run::{Advanced, OfPair, Run, StagedRun};
use pair::side::Side;
use referees::referee::Referee;
use referees::verdict::PairVerdict;
use runs::finished::Finished;
use runs::refused::Refused;
use runs::slip::Slip;
use runs::stage::{Closing, Comparing, Stage};

/// A list's length as it is declared: itself, or the largest number that fits, which is too long in any case.
fn declared<T>(list: &[T]) -> u32
    ensures { result ≡ saturated (length list.now) }
{
    saturated(list.len() as u64)
}

/// Finds the element of a rank of two lists, by the run of a pair and the calls of its seats, and notes the verdicts from the
/// log's start, as far as it has room.
///
/// What was done before a refusal stays done. An opening or a list that is refused has asked nothing and noted nothing; where the
/// stock ran out, each question before gave a verdict, and these are noted.
pub fn find_rank<T: Ordered, R: Referee<T>>(
    a: &[T],
    b: &[T],
    rank: u32,
    referee: &mut R,
    log: &mut [PairVerdict],
) -> Result<Finished<OfPair, T>, RunFault>
    ensures plays { IsHonestRun T.Ordered.before (by_side a.now b.now) rank (R.Stocked.stock referee.old) (R.Stocked.stock referee.new) result }
    ensures notes { NotesVerdicts T.Ordered.before (by_side a.now b.now) rank (R.Stocked.stock referee.old) (R.Stocked.stock referee.new) log.old log.new result }
    ensures asks { SpendsEach R.Referee.spends referee.old (R.Stocked.stock referee.old - R.Stocked.stock referee.new) referee.new }
{
    let (mut stage, slip) = open(declared(a), declared(b), rank)?;
    let mut made = 0;
    let last = loop {
        let run = match stage {
            StagedRun::Comparing(run) => run,
            StagedRun::Closing(run) => break run,
        };
        match compare(run, a, b, referee) {
            Ok(Advanced { verdict, run }) => {
                note(log, made, verdict);
                made += 1;
                stage = run;
            }
            Err(Refused { fault, given: run }) => {
                run.break_off(slip);
                return Err(fault);
            }
        }
    };
    match close(last, slip, a, b, referee) {
        Ok(finished) => Ok(finished),
        Err(
            Refused {
                fault,
                given: (run, slip),
            },
        ) => {
            run.break_off(slip);
            Err(fault)
        }
    }
}

/// Lets a side's seat report of its list.
fn report_one<T: Ordered, S: Stage>(
    run: &mut Run<T, S>,
    side: Side,
    list: &[T],
) -> Result<(), RunFault>
    ensures { ReportsOne T.Ordered.before side list.now (progress_of_run run.old) result (progress_of_run run.new) }
{
    let entry = report_of_pair(list, run, side)?;
    run.report(side, entry)
}

/// Lets both seats report, A first.
fn report_both<T: Ordered, S: Stage>(run: &mut Run<T, S>, a: &[T], b: &[T]) -> Result<(), RunFault>
    ensures { ReportsBoth T.Ordered.before (by_side a.now b.now) (progress_of_run run.old) result (progress_of_run run.new) }
{
    report_one(run, Side::A, a)?;
    report_one(run, Side::B, b)
}

/// A round of a comparing run: both seats report, and the referee is asked.
fn compare<T: Ordered, R: Referee<T>>(
    mut run: Run<T, Comparing>,
    a: &[T],
    b: &[T],
    referee: &mut R,
) -> Result<Advanced<T>, Refused<Run<T, Comparing>>>
    ensures round { Compares T.Ordered.before (by_side a.now b.now) run (R.Stocked.stock referee.old) result }
    ensures asks { AsksOne R.Stocked.stock R.Referee.spends referee.old referee.new (step_answer result) }
{
    match report_both(&mut run, a, b) {
        Ok(()) => run.step(referee),
        Err(fault) => Err(Refused { fault, given: run }),
    }
}

/// The last round, of a closing run: both seats report, and the referee is asked for the result.
fn close<T: Ordered, R: Referee<T>>(
    mut run: Run<T, Closing>,
    slip: Slip<OfPair, T>,
    a: &[T],
    b: &[T],
    referee: &mut R,
) -> Result<Finished<OfPair, T>, Refused<(Run<T, Closing>, Slip<OfPair, T>)>>
    ensures round { Closes T.Ordered.before T.Ordered.sample (by_side a.now b.now) run slip (R.Stocked.stock referee.old) result }
    ensures asks { AsksOne R.Stocked.stock R.Referee.spends referee.old referee.new (finish_answer result) }
{
    match report_both(&mut run, a, b) {
        Ok(()) => run.finish(referee, slip),
        Err(fault) => Err(Refused {
            fault,
            given: (run, slip),
        }),
    }
}

/// Notes a verdict, where there is room for it.
fn note(log: &mut [PairVerdict], made: usize, verdict: PairVerdict)
    ensures { log.new ≡ slice_set log.old made verdict }
{
    if made < log.len() {
        log[made] = verdict;
    }
}
