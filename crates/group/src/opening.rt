ghost use Rattle.group.specs.GroupCalls.{IsWithin, IsOpened, Opens};
ghost use Rattle.group.specs.GroupHistoryLaw.{HistoriesKeepLaw, HistoriesTellTheSame};

use crate::group_seats::GroupSeats;
use crate::progress::Progress;
use crate::range::Range;
use crate::run::{OfGroup, Run};
use elements::placed::Placed;
use faults::fault::RunFault;
use faults::refusal::Refusal;
use runs::slip::Slip;
use runs::stage::Comparing;
use std::marker::PhantomData;

/// The range from `lo` to `hi`, or none where it is empty or reaches beyond the type's places.
fn limits_of<T: Placed>(lo: u64, hi: u64) -> Option<Range>
    ensures { IsWithin T.Placed.LOWEST T.Placed.HIGHEST lo hi result }
{
    if lo < T::LOWEST || hi > T::HIGHEST {
        return None;
    }
    Range::over(lo, hi)
}

/// A run's progress as it is opened, or why that is refused.
fn opened<T: Placed>(lengths: &[u32], lo: u64, hi: u64, rank: u32) -> Result<Progress, Refusal>
    ensures { IsOpened T.Placed.LOWEST T.Placed.HIGHEST lengths.now lo hi rank result }
{
    let seats = GroupSeats::new(lengths)?;
    let limits = limits_of::<T>(lo, hi).ok_or(Refusal::RangeNotPlaces)?;
    if rank == 0 || rank > seats.total() {
        return Err(Refusal::RankOutOfBounds);
    }
    Ok(Progress {
        rank,
        limits,
        range: limits,
        made: 0,
        seats,
    })
}

/// Starts a run for the element of a rank of lists of these lengths, of which every element's place is from `lo` to `hi`.
fn start<T: Placed>(
    lengths: &[u32],
    lo: u64,
    hi: u64,
    rank: u32,
) -> Result<(Run<T, Comparing>, Slip<OfGroup, T>), RunFault>
    ensures { Opens T.Placed.LOWEST T.Placed.HIGHEST lengths.now lo hi rank result }
{
    let progress = opened::<T>(lengths, lo, hi, rank).map_err(|refusal| RunFault::Own(
        refusal, None,
    ))?;
    let run = Run {
        progress,
        stage: Comparing {},
        elements: PhantomData,
    };
    Ok((run, Slip::issue(OfGroup { made_here: () })))
}

/// Opens a run for the element of a rank of lists of which the lengths are declared, one a seat, and of which every element's
/// place is from `lo` to `hi`. Whatever calls follow, in whatever order and with whatever referee, their history keeps the law,
/// and what it tells a seat follows from the seat's own list and the result. The run is comparing, since every group makes at
/// least one verdict, and the slip is given back to the call that ends it.
pub fn open<T: Placed>(
    lengths: &[u32],
    lo: u64,
    hi: u64,
    rank: u32,
) -> Result<(Run<T, Comparing>, Slip<OfGroup, T>), RunFault>
    ensures opens { Opens T.Placed.LOWEST T.Placed.HIGHEST lengths.now lo hi rank result }
    ensures lawful { HistoriesKeepLaw T.Ordered.before T.Ordered.sample T.Placed.place T.Placed.LOWEST T.Placed.HIGHEST lengths.now lo hi rank result }
    ensures tells { HistoriesTellTheSame T.Ordered.before T.Ordered.sample T.Placed.place T.Placed.LOWEST T.Placed.HIGHEST lengths.now lo hi rank result }
{
    start(lengths, lo, hi, rank)
}
