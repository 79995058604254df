ghost use Rattle.std.specs.Prelude.{◌≡◌};
ghost use Rattle.pair.specs.PairCalls.{opening_refusal, Opens};
ghost use Rattle.pair.specs.Bisection.{by_side};
ghost use Rattle.pair.specs.PairHistoryLaw.{HistoriesKeepLaw, HistoriesTellTheSame};

use crate::progress::Progress;
use crate::run::{OfPair, StagedRun};
use crate::seat_state::SeatState;
use crate::window::Window;
use elements::limits::LONGEST_LIST;
use elements::ordered::Ordered;
use faults::fault::{RunFault, unless_refused};
use faults::refusal::Refusal;
use runs::slip::Slip;

/// Why an opening is refused, if it is.
fn opening_refusal(a: u32, b: u32, rank: u32) -> Option<Refusal>
    ensures { result ≡ opening_refusal (by_side a b) rank }
{
    if a > LONGEST_LIST || b > LONGEST_LIST {
        return Some(Refusal::ListTooLong);
    }
    if rank == 0 || rank > a + b {
        return Some(Refusal::RankOutOfBounds);
    }
    None
}

/// Starts a run for the element of a rank of two lists of these lengths.
fn start<T: Ordered>(a: u32, b: u32, rank: u32) -> Result<(StagedRun<T>, Slip<OfPair, T>), RunFault>
    ensures { Opens (by_side a b) rank result }
{
    unless_refused(opening_refusal(a, b, rank), None)?;
    let progress = Progress {
        window: Window::whole(rank),
        made: 0,
        a: SeatState::new(a),
        b: SeatState::new(b),
    };
    Ok((progress.staged(), Slip::issue(OfPair { made_here: () })))
}

/// Opens a run for the element of a rank of two lists, A's and B's, of which the lengths are declared. Whatever calls
/// follow, in whatever order and with whatever referee, their history keeps the law. For rank 1 the run is closing at once,
/// since no verdict is needed; for every other rank it is comparing. `StagedRun` has what both stages take.
#[tactic(auto, using(crate::proofs::HistoryKeepsLaw::histories_keep_law, crate::proofs::HistoryKeepsLaw::histories_tell_the_same))]
pub fn open<T: Ordered>(
    a: u32,
    b: u32,
    rank: u32,
) -> Result<(StagedRun<T>, Slip<OfPair, T>), RunFault>
    ensures opens { Opens (by_side a b) rank result }
    ensures lawful { HistoriesKeepLaw T.Ordered.before T.Ordered.sample (by_side a b) rank result }
    // A seat could have written the verdicts down itself, from its list and the element of the rank: of two runs that look alike to
    // it, however the other's lists differ, it was told the same.
    ensures tells { HistoriesTellTheSame T.Ordered.before T.Ordered.sample (by_side a b) rank result }
{
    start(a, b, rank)
}
