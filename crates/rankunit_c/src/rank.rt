ghost use Rattle.std.specs.Prelude.{◌≡◌};
ghost use Rattle.rankunit.specs.Elements.Percentiles.{median_rank, MedianAnswer, percentile_rank, PercentileAnswer};
ghost use Rattle.rankunit_c.specs.Ranks.{rank_of};

use crate::number::refusal_number;
use rankunit::{Fault, RunFault, median_rank, percentile_rank};

/// What a call for a rank comes to: the rank, or the refusal.
#[repr(C)]
#[derive(Clone, Copy)]
pub struct Rank {
    pub refusal: u32,
    pub rank: u32,
}

/// What a call for a rank answers, as numbers.
fn rank_of(answer: Result<u32, RunFault>) -> Rank
    ensures { result ≡ rank_of answer }
{
    match answer {
        Ok(rank) => Rank { refusal: 0, rank },
        Err(fault) => Rank {
            refusal: refusal_number(fault.info().refusal),
            rank: 0,
        },
    }
}

/// The rank of the median among n elements.
#[unsafe(no_mangle)]
pub extern "C" fn rankunit_median_rank(n: u32) -> Rank
    ensures value { result ≡ rank_of (median_rank n) }
    ensures meaning { MedianAnswer n (median_rank n) }
{
    rank_of(median_rank(n))
}

/// The rank of the percentile p among n elements.
#[unsafe(no_mangle)]
pub extern "C" fn rankunit_percentile_rank(p: u8, n: u32) -> Rank
    ensures value { result ≡ rank_of (percentile_rank p n) }
    ensures meaning { PercentileAnswer p n (percentile_rank p n) }
{
    rank_of(percentile_rank(p, n))
}
