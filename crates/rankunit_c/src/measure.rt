ghost use Rattle.std.specs.Prelude.{◌≡◌, ◌+◌, ◌^◌, ◌<◌};
ghost use Rattle.rankunit.specs.Elements.Delays.{delay_before, delay_zero};
ghost use Rattle.rankunit.specs.Elements.Limits.{saturated};
ghost use Rattle.rankunit.specs.Group.GroupCalls.{Opens, step_answer};
ghost use Rattle.rankunit.specs.Group.GroupHistoryLaw.{HistoriesKeepLaw};
ghost use Rattle.rankunit.specs.Referees.PlainStock.{plain_stock, FallsByOne};
ghost use Rattle.rankunit.specs.Runs.Answers.{AsksOne};
ghost use Rattle.rankunit_c.specs.GroupRounds.{ReportsOne, ReportsFrom, PlaysRound};
ghost use Rattle.rankunit_c.specs.Measures.{declared_lengths, delay_place, lowest, highest, IsGroupRun, IsMeasured};
ghost use Rattle.rankunit_c.specs.PartLists.{lists_of};

use crate::outcome::{Outcome, found, refused};
use crate::parts::Parts;
use rankunit::{
    Comparing, Delay, Fault, Finished, GroupAdvanced, GroupRun, OfGroup, Placed, Plain, Refused,
    RunFault, Slip, StagedGroupRun, open_group, report_of_group,
};

/// The stock of the referee: more than any run needs.
const STOCK: u64 = 64;

/// More seats than any group has.
const TOO_MANY: usize = 17;

/// A length as it is declared: itself, or the largest number that fits, which is too long in any case.
fn declared(length: usize) -> u32
    ensures { result ≡ saturated length }
{
    u32::try_from(length).unwrap_or(u32::MAX)
}

/// Opens a run for the element of a rank of all parts, over all places of delays.
fn open(
    parts: &Parts<'_>,
    rank: u32,
) -> Result<(GroupRun<Delay, Comparing>, Slip<OfGroup, Delay>), RunFault>
    ensures opens { Opens lowest highest (declared_lengths (lists_of parts.now)) lowest highest rank result }
    ensures lawful { HistoriesKeepLaw delay_before delay_zero delay_place lowest highest (declared_lengths (lists_of parts.now)) lowest highest rank result }
{
    let lengths = [declared(parts.each); TOO_MANY];
    let seats = (parts.number as usize).min(TOO_MANY);
    open_group(&lengths[..seats], Delay::LOWEST, Delay::HIGHEST, rank)
}

/// A seat reports of its list.
fn report_one(
    run: &mut GroupRun<Delay, Comparing>,
    number: u32,
    list: &[Delay],
) -> Result<(), RunFault>
    ensures { ReportsOne delay_before delay_place number list.now run.old result run.new }
{
    let counts = report_of_group(list, run, number)?;
    run.report(number, counts)
}

/// The seats from a number on report, each of its part.
fn report_from(
    run: &mut GroupRun<Delay, Comparing>,
    number: u32,
    parts: &Parts<'_>,
) -> Result<(), RunFault>
    requires { number + parts.now.number < 2 ^ 32 }
    ensures { ReportsFrom delay_before delay_place number (lists_of parts.now) run.old result run.new }
{
    let Some((part, later)) = parts.split_first() else {
        return Ok(());
    };
    report_one(run, number, part)?;
    report_from(run, number + 1, &later)
}

/// A round: every seat reports, and the referee is asked.
fn round(
    mut run: GroupRun<Delay, Comparing>,
    parts: &Parts<'_>,
    referee: &mut Plain,
) -> Result<GroupAdvanced<Delay>, Refused<GroupRun<Delay, Comparing>>>
    requires { 1 + parts.now.number < 2 ^ 32 }
    ensures plays { PlaysRound delay_before delay_place (lists_of parts.now) run referee.old result }
    ensures asks { AsksOne plain_stock FallsByOne referee.old referee.new (step_answer result) }
{
    match report_from(&mut run, 1, parts) {
        Ok(()) => run.step(referee),
        Err(fault) => Err(Refused { fault, given: run }),
    }
}

/// Finds the element of a rank of all parts, by a run from its opening to its end.
fn find(parts: &Parts<'_>, rank: u32) -> Result<Finished<OfGroup, Delay>, RunFault>
    ensures { IsGroupRun delay_before delay_place lowest highest (lists_of parts.now) rank lowest highest result }
{
    let (mut run, slip) = open(parts, rank)?;
    let mut referee = Plain::new(STOCK);
    loop {
        match round(run, parts, &mut referee) {
            Ok(
                GroupAdvanced {
                    verdict: _,
                    run: StagedGroupRun::Comparing(next),
                },
            ) => run = next,
            Ok(
                GroupAdvanced {
                    verdict: _,
                    run: StagedGroupRun::Closing(last),
                },
            ) => return Ok(last.finish(slip)),
            Err(Refused { fault, given }) => {
                given.break_off(slip);
                return Err(fault);
            }
        }
    }
}

/// Finds the element of a rank of delays, by the run of a group in which so many seats each have one of as many equal parts. It
/// is there to be measured, and nothing else is meant to call it.
#[unsafe(no_mangle)]
pub extern "C" fn rankunit_measure_group(delays: &[Delay], seats: u32, rank: u32) -> Outcome
    ensures { IsMeasured delays.now seats rank result }
{
    match find(&Parts::equal(delays, seats), rank) {
        Ok(finished) => found(finished, 0),
        Err(fault) => refused(fault.info()),
    }
}
