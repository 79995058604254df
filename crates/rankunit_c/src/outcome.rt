ghost use Rattle.std.specs.Prelude.{◌≡◌, ◌^◌, ◌<◌, ◌≤◌, length};
ghost use Rattle.rankunit.specs.Requests.Rooms.{most_delays};
ghost use Rattle.rankunit_c.specs.Outcomes.{found, refused, most_verdicts, AnswersRequest};
ghost use Rattle.rankunit_c.specs.Verdicts.{bits};

use crate::number::{layer_number, refusal_number, seat_number, spot_number};
use rankunit::{
    Delay, Fault, FaultInfo, Finished, MOST_VERDICTS, PairVerdict, answer_request, most_delays,
};

/// What a request comes to: the element with the number of verdicts and the verdicts as a number, or the refusal with the layer
/// that refused, the seat and the spot.
#[repr(C)]
#[derive(Clone, Copy)]
pub struct Outcome {
    pub refusal: u32,
    pub layer: u32,
    pub seat: u32,
    pub result: u32,
    pub count: u32,
    pub verdicts: u32,
    pub spot: u64,
}

/// The outcome of a finished run, with its verdicts as a number.
pub(crate) fn found<K: Copy>(finished: Finished<K, Delay>, verdicts: u32) -> Outcome
    ensures { result ≡ found finished verdicts }
{
    Outcome {
        refusal: 0,
        layer: 0,
        seat: 0,
        result: finished.result().micros,
        count: finished.count(),
        verdicts,
        spot: 0,
    }
}

/// The outcome of what was refused.
pub(crate) fn refused(info: FaultInfo) -> Outcome
    ensures { result ≡ refused info }
{
    Outcome {
        refusal: refusal_number(info.refusal),
        layer: layer_number(info.layer),
        seat: seat_number(info.seat),
        result: 0,
        count: 0,
        verdicts: 0,
        spot: spot_number(info.refusal),
    }
}

/// Verdicts as the bits of a number, the first in the lowest.
fn bits(verdicts: &[PairVerdict]) -> u32
    requires { length verdicts.now ≤ most_verdicts }
    ensures number { result ≡ bits verdicts.now }
    ensures fits { result < 2 ^ length verdicts.now }
{
    let [verdict, later @ ..] = verdicts else {
        return 0;
    };
    verdict.number() as u32 + 2 * bits(later)
}

/// How many delays at most either sheet has in a request of so many bytes.
#[unsafe(no_mangle)]
pub extern "C" fn rankunit_most_delays(length: usize) -> usize
    ensures { result ≡ most_delays length }
{
    most_delays(length)
}

/// Answers a request. Its lists are read into the two slices.
#[unsafe(no_mangle)]
pub extern "C" fn rankunit_answer_request(bytes: &[u8], a: &mut [Delay], b: &mut [Delay]) -> Outcome
    ensures { AnswersRequest bytes.now a.old a.new b.old b.new result }
{
    let mut log = [PairVerdict::NotBefore; MOST_VERDICTS];
    match answer_request(bytes, a, b, &mut log) {
        Ok(finished) => found(finished, bits(&log[..finished.count() as usize])),
        Err(fault) => refused(fault.info()),
    }
}
