use crate::bounds::Bounds;
use crate::row::row_length;
use crate::side::Side;
use crate::window::Window;
use elements::delay::Delay;
use elements::entry::Entry;
use referees::verdict::PairVerdict;

#[test]
fn rows_are_powers_of_two(rt: HostRuntime) {
    for (k, length) in [
        (0, 1),
        (1, 1),
        (2, 2),
        (3, 4),
        (5, 8),
        (131_072, 131_072),
        (u32::MAX, 0x1_0000_0000),
    ] {
        assert_eq!(rt; row_length(k), length);
    }
}

// A has 12, 40, 55 and B has 20, 31, 70: for rank 6 the verdicts are 1, 0, 1.
#[test]
fn a_window_follows_its_verdicts(rt: HostRuntime) {
    let mut window = Window::whole(6);
    for (a, b, verdict) in [
        (4, 4, PairVerdict::Before),
        (6, 2, PairVerdict::NotBefore),
        (5, 3, PairVerdict::Before),
    ] {
        assert_eq!(rt; window.place_asked(Side::A), a);
        assert_eq!(rt; window.place_asked(Side::B), b);
        window = window.halved(verdict);
    }
    assert_eq!(rt; window.size, 1);
    assert_eq!(rt; window.place_asked(Side::A), 6);
    assert_eq!(rt; window.place_asked(Side::B), 3);
    assert_eq!(rt; window.halved(PairVerdict::Before), window);
}

#[test]
fn a_report_is_tested_against_two_entries(rt: HostRuntime) {
    let reported = Entry::Element(Delay { micros: 40 });
    let window = Window::whole(4).halved(PairVerdict::NotBefore);
    let bounds = Bounds::widest().after(Side::A, PairVerdict::NotBefore, reported);
    let later = Entry::Element(Delay { micros: 55 });
    assert!(rt; !window.passes(Side::A, 3, bounds, later));
    assert!(rt; !window.passes(Side::A, 3, bounds, Entry::Below));
    assert!(rt; window.passes(Side::A, 3, bounds, reported));
}
