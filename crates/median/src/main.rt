//! Two seats find the median of their delays, and neither shows the other its list.
#![tactic(auto)]

use rankunit::{
    Delay, Finished, OfPair, PairAdvanced, PairRun, Plain, Refused, RunFault, Side, Slip, Stage,
    StagedPairRun, median_rank, open_pair, report_of_pair,
};
use std::io;

/// Each seat looks at its own list, and reports what the run asks it for.
fn report<S: Stage>(run: &mut PairRun<Delay, S>, a: &[Delay], b: &[Delay]) -> Result<(), RunFault> {
    run.report(Side::A, report_of_pair(a, run, Side::A)?)?;
    run.report(Side::B, report_of_pair(b, run, Side::B)?)
}

/// Ends a run of which a call was refused.
fn end<S: Stage>(run: PairRun<Delay, S>, slip: Slip<OfPair, Delay>, fault: RunFault) -> RunFault {
    run.break_off(slip);
    fault
}

/// Plays a run over two lists of three from its opening to its result.
fn find_median(a: &[Delay], b: &[Delay]) -> Result<Finished<OfPair, Delay>, RunFault> {
    let mut referee = Plain::new(64);
    let (mut stage, slip) = open_pair(3, 3, median_rank(6)?)?;
    loop {
        match stage {
            StagedPairRun::Comparing(mut run) => {
                if let Err(fault) = report(&mut run, a, b) {
                    return Err(end(run, slip, fault));
                }
                match run.step(&mut referee) {
                    Ok(PairAdvanced { verdict: _, run }) => stage = run,
                    Err(Refused { fault, given: run }) => return Err(end(run, slip, fault)),
                }
            }
            StagedPairRun::Closing(mut run) => {
                if let Err(fault) = report(&mut run, a, b) {
                    return Err(end(run, slip, fault));
                }
                return run.finish(&mut referee, slip).map_err(|Refused {
                    fault,
                    given: (run, slip),
                }| end(run, slip, fault));
            }
        }
    }
}

fn main(rt: HostRuntime) -> io::Result<()> {
    let a = [12, 40, 55].map(|micros| Delay { micros });
    let b = [20, 31, 70].map(|micros| Delay { micros });
    match find_median(&a, &b) {
        Ok(finished) => println!(rt;
            "median {}, after {} verdicts",
            finished.result(),
            finished.count(),
        ),
        Err(fault) => println!(rt; "{fault}"),
    }
}
