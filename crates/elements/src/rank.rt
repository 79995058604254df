ghost use Rattle.std.specs.Prelude.{◌/◌, ◌≡◌, ◌*◌, ◌≤◌};
ghost use Rattle.elements.specs.Percentiles.{median_rank, MedianAnswer, percentile_rank, PercentileAnswer};

use faults::fault::RunFault;
use faults::refusal::Refusal;

/// What a call for a rank refuses with.
const OUT_OF_BOUNDS: RunFault = RunFault::Own(Refusal::RankOutOfBounds, None);

/// The rank of the median among n elements: half of n, rounded up.
pub fn median_rank(n: u32) -> Result<u32, RunFault>
    ensures value { result ≡ median_rank n }
    ensures meaning { MedianAnswer n result }
{
    if n == 0 {
        return Err(OUT_OF_BOUNDS);
    }
    Ok(n.div_ceil(2))
}

/// The rank of the percentile p among n elements: p hundredths of n, rounded down, but at least 1.
pub fn percentile_rank(p: u8, n: u32) -> Result<u32, RunFault>
    ensures value { result ≡ percentile_rank p n }
    ensures meaning { PercentileAnswer p n result }
{
    if n == 0 || p == 0 || p > 99 {
        return Err(OUT_OF_BOUNDS);
    }
    let share = product(p, n) / 100;
    // Tried `share.max(1)`: the proof of what the rank means did not close.
    if share == 0 { Ok(1) } else { Ok(share as u32) }
}

/// p times n.
fn product(p: u8, n: u32) -> u64
    requires { p ≤ 100 }
    ensures exact { result ≡ p * n }
    ensures bounded { result ≤ 100 * n }
{
    p as u64 * n as u64
}
