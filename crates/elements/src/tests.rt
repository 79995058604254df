use crate::rank::{median_rank, percentile_rank};
use faults::fault::{Fault, RunFault};

/// A call's answer, with a refusal as its number.
fn numbered(answer: Result<u32, RunFault>) -> Result<u32, u8> {
    answer.map_err(|fault| fault.info().refusal.number())
}

#[test]
fn percentiles_at_small_numbers(rt: HostRuntime) {
    for n in 1..=12 {
        for p in 1..=99 {
            let below = (1..=n).filter(|q| 100 * *q as u64 <= p as u64 * n as u64);
            assert_eq!(rt; percentile_rank(p, n), Ok(below.last().unwrap_or(1)));
        }
    }
}

#[test]
fn ends_and_refusals(rt: HostRuntime) {
    assert_eq!(rt; numbered(median_rank(0)), Err(11));
    assert_eq!(rt; median_rank(u32::MAX), Ok(2_147_483_648));
    for (p, n) in [(50, 0), (0, 7), (100, 7), (255, 7)] {
        assert_eq!(rt; numbered(percentile_rank(p, n)), Err(11));
    }
    assert_eq!(rt; percentile_rank(99, u32::MAX), Ok(4_252_017_622));
}
