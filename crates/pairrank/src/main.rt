//! Reads a rank and the sheets of two seats from standard input, finds the element of the rank by the run of a pair, and prints
//! the verdicts, the result and the count, or why there is none.
#![tactic(auto)]

ghost use Rattle.std.specs.Prelude.{IfOk, length};
ghost use Rattle.rankunit.specs.Requests.Rooms.{SlicesSuffice, LogSuffices};

use rankunit::{
    Delay, Finished, MOST_VERDICTS, OfPair, Ordered, PairVerdict, RequestOutcome, RunFault,
    answer_request, most_delays,
};
use std::alloc::{AllocError, Global};
use std::io::Read;

/// So many bytes of the input are looked at.
const MOST_BYTES: u64 = 60_000;

/// Answers a request. Its slices have room for as many delays as a request of its length can hold, so none is too short. The log
/// has room for every verdict, so all that the result counts are noted, and there are as many digits to print.
fn answer(
    heap: Global,
    bytes: &[u8],
    log: &mut [PairVerdict; MOST_VERDICTS],
) -> Result<Result<Finished<OfPair, Delay>, RunFault>, AllocError>
    ensures slices { IfOk result SlicesSuffice }
    ensures log { IfOk result (LogSuffices (length log.new)) }
{
    let room = most_delays(bytes.len());
    let mut a = vec![in heap; Delay::sample(); room]?;
    let mut b = vec![in heap; Delay::sample(); room]?;
    Ok(answer_request(bytes, &mut a, &mut b, log))
}

fn main(rt: HostRuntime) -> anyhow::Result<()> {
    let heap = rt.alloc();
    let mut bytes = Vec::new(heap);
    rt.stdin().take(MOST_BYTES).read_to_end(&mut bytes)?;
    let mut log = [PairVerdict::NotBefore; MOST_VERDICTS];
    match answer(heap, &bytes, &mut log)? {
        Ok(finished) => println!(rt;
            "{}",
            RequestOutcome {
                noted: &log,
                finished,
            }
        )?,
        Err(fault) => println!(rt; "{fault}")?,
    }
    Ok(())
}
