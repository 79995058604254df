ghost use Rattle.std.specs.Prelude.{None, IfOk, take};
ghost use Rattle.elements.specs.Delays.{delay_before};
ghost use Rattle.requests.specs.RequestAnswers.{ReadsFor, Answers};
ghost use Rattle.requests.specs.Rooms.{RoomSuffices, LogSuffices};
ghost use Rattle.seats.specs.ListRefusals.{IsListRefusal};

use crate::request::{MOST_VERDICTS, Request};
use elements::delay::Delay;
use elements::limits::LONGEST_LIST;
use faults::fault::{RunFault, SeatFault};
use faults::refusal::Refusal;
use faults::seat::Seat;
use pair::run::OfPair;
use referees::plain::Plain;
use referees::verdict::PairVerdict;
use runs::finished::Finished;
use seats::honest_run::find_rank;
use sheets::reader::read_sheet;

/// The stock of the referee: more than any run needs.
const STOCK: u64 = 64;

/// Reads a seat's sheet; a fault of the sheet stands whole in the seat's.
#[tactic(auto, using(crate::proofs::ReadLists::read_unrefused))]
fn read_for(seat: Seat, bytes: &[u8], list: &mut [Delay]) -> Result<usize, SeatFault>
    ensures reads { ReadsFor seat bytes.now list.old list.new result }
    ensures unrefused { IfOk result (λ count. IsListRefusal delay_before (take count list.new) None) }
{
    Ok(read_sheet(bytes, Some(seat), list)?)
}

/// Answers a request: checks A's sheet, then B's, then opens a run and plays it to its end over a plain referee. The lists are
/// read into two slices, and the verdicts are noted from the log's start.
///
/// What was done before a refusal stays done. Where B's sheet is refused, `a` begins with A's list; where the opening is, `b` with
/// B's besides; the rest of both, and the log, are as they were. Slices with room for `most_delays` are never too short,
/// and in a log with room for `MOST_VERDICTS` all the verdicts of a result are noted.
pub fn answer(
    bytes: &[u8],
    a: &mut [Delay],
    b: &mut [Delay],
    log: &mut [PairVerdict],
) -> Result<Finished<OfPair, Delay>, RunFault>
    ensures answers { Answers bytes.now (record { a = a.old; b = b.old; log = log.old }) (record { a = a.new; b = b.new; log = log.new }) result }
    ensures room { RoomSuffices bytes.now (record { a = a.old; b = b.old; log = log.old }) result }
    ensures log { LogSuffices MOST_VERDICTS result }
{
    let Some(request) = Request::parse(bytes) else {
        return Err(RunFault::Own(Refusal::RankOutOfBounds, None));
    };
    let of_a = read_for(Seat::A, request.a, a)?;
    let of_b = read_for(Seat::B, request.b, b)?;
    // No rank of two lists is greater than 2^MOST_VERDICTS, so no row for one is halved more often.
    prove!(2 * LONGEST_LIST <= 1 << MOST_VERDICTS);
    find_rank(
        &a[..of_a],
        &b[..of_b],
        request.rank,
        &mut Plain::new(STOCK),
        log,
    )
}
