use crate::own_type::{Hops, TooManyHops};
use elements::delay::Delay;
use elements::entry::Entry;
use elements::link_level::LinkLevel;
use elements::ordered::Ordered;
use elements::placed::Placed;
use faults::fault::{RunFault, SeatFault, SheetFault};
use faults::fault_info::HasNotice;
use faults::refusal::Refusal;
use faults::seat::Seat;
use referees::pile::{PileNumbers, play_on_loan};
use referees::plain::Plain;
use referees::play::Line;
use referees::question::Question;
use referees::referee::{Stocked, ask_first};
use referees::shares::Shares;
use referees::spare::Spare;
use referees::strip::Strip;
use referees::verdict::PairVerdict;
use sheets::reader::read_sheet;
use sheets::sheet_summary::check_sheet;
use std::alloc::{AllocError, Global};
use std::test::Fail;

#[test]
fn places_of_link_levels(rt: HostRuntime) {
    for (level, link, place) in [
        (i32::MIN, 0, 0),
        (-1, u32::MAX, 0x7fff_ffff_ffff_ffff),
        (0, 0, 0x8000_0000_0000_0000),
        (i32::MAX, u32::MAX, u64::MAX),
    ] {
        let x = LinkLevel { level, link };
        assert_eq!(rt; x.place_number(), place);
        assert_eq!(rt; LinkLevel::at_place(place), Some(x));
    }
}

#[test]
fn delays_end_at_32_bits(rt: HostRuntime) {
    assert!(rt; Delay::at_place(0xffff_ffff).is_some());
    assert!(rt; Delay::at_place(0x1_0000_0000).is_none());
}

#[test]
fn marks_stand_outside_every_element(rt: HostRuntime) {
    let greatest = Entry::Element(Delay { micros: u32::MAX });
    assert!(rt; Entry::Below.is_before(Entry::Element(Delay::sample())));
    assert!(rt; greatest.is_before(Entry::Above));
    assert!(rt; !Entry::<Delay>::Above.is_before(Entry::Above));
}

#[test]
fn a_fault_keeps_its_line(rt: HostRuntime) -> Result<(), Fail> {
    for (spot, said) in [
        (3, "refused 6 sheet B 3"),
        (4_294_967_297, "refused 6 sheet B 4294967297"),
    ] {
        let sheet = SheetFault {
            refusal: Refusal::OutOfOrder(spot),
            seat: Some(Seat::B),
        };
        let run = RunFault::OfSeat(SeatFault::OfSheet(sheet));
        let line = run.to_string(rt.alloc())?;
        assert_eq!(rt; line.as_str(), said);
    }
    Ok(())
}

/// What is printed of a sheet, where there is room for four elements of either kind.
fn printed(heap: Global, bytes: &[u8]) -> Result<String, AllocError> {
    let mut delays = [Delay::sample(); 4];
    let mut levels = [LinkLevel::sample(); 4];
    match check_sheet(bytes, &mut delays, &mut levels) {
        Ok(report) => report.to_string(heap),
        Err(fault) => fault.to_string(heap),
    }
}

#[test]
fn what_is_printed_of_a_sheet(rt: HostRuntime) -> Result<(), Fail> {
    let delays = b"\x01\0\0\0\x0d\x01\0\0\0\x0c\0\0\0\x28\0\0\0\x37";
    let report =
        "kind: delays\nelements: 3\nlowest: 12 (rank 1)\nmedian: 40 (rank 2)\n90th percentile: 40 (rank 2)\nhighest: 55 (rank 3)";
    assert_eq!(rt; printed(rt.alloc(), delays)?.as_str(), report);
    let empty = printed(rt.alloc(), b"\x01\0\0\0\x01\x02")?;
    assert_eq!(rt;
        empty.as_str(),
        "kind: link levels\nelements: 0 (the list is empty)"
    );
    let neither = printed(rt.alloc(), b"\x01\0\0\0\x01\x07")?;
    assert_eq!(rt; neither.as_str(), "refused 4 sheet - -");
    let falling = printed(
        rt.alloc(),
        b"\x01\0\0\0\x0d\x01\0\0\0\x14\0\0\0\x46\0\0\0\x1f",
    )?;
    assert_eq!(rt; falling.as_str(), "refused 6 sheet - 3");
    Ok(())
}

#[test]
fn halves_join_by_every_word(rt: HostRuntime) {
    for number in [0, 1, 0x8000_0000_0000_0007, u64::MAX] {
        for word in [0, 1, 0xffff_ffff, u64::MAX] {
            assert_eq!(rt; Shares::split(number, word).reconstruct(), number);
        }
    }
    assert_eq!(rt; Shares::split(5, 7).difference, 0xffff_ffff_ffff_fffe);
}

#[test]
fn a_lent_referee_is_spent_as_a_spare(rt: HostRuntime) {
    let numbers = PileNumbers {
        whole: 7,
        part: 2,
        plain: 9,
    };
    let question = Question::First(Entry::Element(Delay { micros: 12 }), Entry::Above);
    let mut lines = [question; 4].map(Line::new);
    let tally = play_on_loan(numbers, Strip::new(&mut [7, u64::MAX, 12]), &mut lines);
    assert_eq!(rt; tally.answered, 3);
    assert_eq!(rt; tally.left, 0);
    assert_eq!(rt; lines[0].left, 2);
    assert!(rt; lines[2].is_answered());
    assert!(rt; !lines[3].is_answered());
}

#[test]
fn more_than_32_bits_are_told_as_the_greatest_number(rt: HostRuntime) {
    let most = Plain::new(0x1_0000_0007);
    assert_eq!(rt; most.left(), u32::MAX);
    let spared = Spare::new(most, Plain::new(1));
    assert_eq!(rt; spared.left(), u32::MAX);
}

#[test]
fn a_type_of_ones_own_is_read_and_compared(rt: HostRuntime) {
    let mut list = [Hops { number: 1 }; 3];
    let falls = Err(SheetFault {
        refusal: Refusal::OutOfOrder(2),
        seat: None,
    });
    assert_eq!(rt;
        read_sheet(b"\x01\0\0\0\x09\x09\0\0\0\x02\0\0\0\x07", None, &mut list),
        falls
    );
    assert_eq!(rt;
        read_sheet(b"\x01\0\0\0\x09\x09\0\0\0\x07\0\0\0\x02", None, &mut list),
        Ok(2)
    );
    assert_eq!(rt; list, [7, 2, 1].map(|number| Hops { number }));
    let [more, fewer] = [7, 2].map(|number| Entry::Element(Hops { number }));
    assert_eq!(rt;
        ask_first(&mut Plain::new(1), more, fewer),
        Ok(PairVerdict::Before)
    );
}

#[test]
fn a_fault_of_ones_own_has_its_line(rt: HostRuntime) -> Result<(), Fail> {
    let hops = Hops { number: 4 };
    let line = TooManyHops { hops }.notice().to_string(rt.alloc())?;
    assert_eq!(rt; line.as_str(), "refused 99 run - 4");
    Ok(())
}
