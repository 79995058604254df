use crate::counts::Counts;
use crate::range::Range;
use crate::seat_state::SeatState;
use crate::seat_table::{SeatStates, table_of, table_seat, table_totals};
use crate::totals::Totals;
use faults::refusal::Refusal;
use referees::verdict::GroupVerdict;

#[test]
fn a_range_closes_in_on_9(rt: HostRuntime) {
    let mut range = Range::over(0, 15).unwrap();
    for (target, verdict) in [
        (8, GroupVerdict::Higher),
        (12, GroupVerdict::Lower),
        (10, GroupVerdict::Lower),
        (9, GroupVerdict::Done),
    ] {
        assert_eq!(rt; range.target(), target);
        range = range.narrowed(verdict);
    }
    assert_eq!(rt; Some(range), Range::over(9, 9));
}

#[test]
fn ranges_reach_the_last_place(rt: HostRuntime) {
    assert_eq!(rt;
        Range::over(0, u64::MAX).unwrap().target(),
        0x8000_0000_0000_0000
    );
    let last = Range::over(u64::MAX, u64::MAX).unwrap();
    assert_eq!(rt; last.target(), u64::MAX);
    assert_eq!(rt; last.narrowed(GroupVerdict::Higher), last);
    let first = Range::over(0, 0).unwrap();
    assert_eq!(rt; first.narrowed(GroupVerdict::Lower), first);
    assert!(rt; Range::over(8, 7).is_none());
}

#[test]
fn a_table_has_sixteen_seats(rt: HostRuntime) {
    let empty = SeatState::new(0).unwrap();
    let mut table = table_of(empty);
    let range = Range::over(0, 15).unwrap();
    for (number, below) in [(0, 65_536), (5, 1), (15, 2)] {
        let counts = Counts { below, above: 0 };
        let seat = table_seat(&mut table, number);
        *seat = SeatState::new(65_536).unwrap();
        assert_eq!(rt; seat.report(range, counts), Ok(()));
        assert_eq!(rt; seat.report(range, counts), Err(Refusal::NotItsTurn));
        assert_eq!(rt; table_seat(&mut table, number).given, Some(counts));
    }
    assert!(rt; *table_seat(&mut table, 4) == empty);
    let totals = Totals {
        given: 3,
        below: 65_539,
        above: 0,
    };
    assert!(rt; table_totals(&table, 16) == totals);
    assert_eq!(rt; table_totals(&table, 15).below, 65_537);
    table.advance(15, GroupVerdict::Lower);
    assert_eq!(rt; table_totals(&table, 16).given, 1);
    assert_eq!(rt; table_totals(&table, 15).given, 0);
    assert_eq!(rt; table_seat(&mut table, 5).known.high, 65_535);
    assert!(rt; SeatState::new(65_537).is_none());
}
