ghost use Rattle.std.specs.Prelude.{◌≡◌, ◌+◌, ◌^◌, ◌≤◌};
ghost use Rattle.std.specs.Int.{IsPowerOfTwo};
ghost use Rattle.pair.specs.Rows.{row_length, entry_kind};
ghost use Rattle.pair.specs.Powers.{power_in_one_way};

use crate::bounds::Bounds;
use crate::row::row_length;
use crate::side::Side;
use elements::entry::Entry;
use elements::ordered::Ordered;
use referees::operand::EntryKind;
use referees::verdict::PairVerdict;

/// Where a pair of rows for one rank is still looked at: in each row, past its offset, `size` places. There is no window
/// whose size is not a power of two, or that passes the end of a row.
#[derive(Clone, Copy, Debug, PartialEq, Eq)]
pub struct Window {
    pub rank: u32,
    pub a: u64,
    pub b: u64,
    pub size: u64,
    pub row: u64,
    ghost for_rank: { row ≡ row_length rank },
    ghost small: { row ≤ 2 ^ 32 },
    ghost power: { IsPowerOfTwo size } by { power_in_one_way size },
    ghost within: { a + b + size ≡ row },
}

impl Window {
    ghost use Rattle.std.specs.Prelude.{◌≡◌};
    ghost use Rattle.pair.specs.HalvedWindow.{IsWhole, Halves, offset_of};
    ghost use Rattle.pair.specs.Bisection.{half, place_asked};
    ghost use Rattle.pair.specs.SeatBounds.{asked_again, passes};
    ghost use Rattle.pair.specs.Rows.{belows, row_length, kind_at, entry_kind};

    /// The window that is the whole of both rows for a rank.
    #[tactic(auto, using(crate::proofs::Halvings::row_length_fits))]
    pub(crate) fn whole(rank: u32) -> Window
        ensures { IsWhole rank result }
    {
        let row = row_length(rank);
        Window {
            rank,
            a: 0,
            b: 0,
            size: row,
            row,
        }
    }

    /// How many places of a side's row the window has left behind.
    pub(crate) fn offset(self, side: Side) -> u64
        ensures { result ≡ offset_of side self }
    {
        match side {
            Side::A => self.a,
            Side::B => self.b,
        }
    }

    /// Half the size, but at least 1.
    fn half(self) -> u64
        ensures { result ≡ half self.size }
    {
        (self.size / 2).max(1)
    }

    /// The place that a side is asked for, counted from 1.
    pub fn place_asked(self, side: Side) -> u64
        ensures { result ≡ place_asked (offset_of side self) self.size }
    {
        self.offset(side) + self.half()
    }

    /// The window that a verdict leaves: its upper half in A's row and its lower half in B's, or the other way round. One of
    /// size 1 stays as it is.
    pub(crate) fn halved(self, verdict: PairVerdict) -> Window
        ensures { Halves self verdict result }
    {
        let step = self.size / 2;
        let (up_a, up_b) = match verdict {
            PairVerdict::Before => (step, 0),
            PairVerdict::NotBefore => (0, step),
        };
        Window {
            rank: self.rank,
            a: self.a + up_a,
            b: self.b + up_b,
            size: self.half(),
            row: self.row,
        }
    }

    /// How many belows a side's row begins with.
    pub fn belows(self, side: Side) -> u64
        ensures { result ≡ belows side self.rank }
    {
        match side {
            Side::A => self.row.saturating_sub(self.rank as u64),
            Side::B => 0,
        }
    }

    /// The kind that a side's row has at a place, for every list of the declared length.
    pub fn kind_at(self, side: Side, declared: u32, place: u64) -> EntryKind
        ensures { result ≡ kind_at side self.rank declared place }
    {
        let belows = self.belows(side);
        if place <= belows {
            EntryKind::Below
        } else if place <= belows + self.rank.min(declared) as u64 {
            EntryKind::Element
        } else {
            EntryKind::Above
        }
    }

    /// Whether the place that a side is asked for was asked before: at size 1 it is the window's end, unless that is the row's.
    fn asks_again(self, side: Side) -> bool
        ensures { result ≡ asked_again (row_length self.rank) (offset_of side self) self.size }
    {
        self.size == 1 && self.offset(side) + 1 < self.row
    }

    /// Whether a side can report an entry at the place it is asked for, within the bounds that its earlier reports leave.
    pub(crate) fn passes<T: Ordered>(
        self,
        side: Side,
        declared: u32,
        bounds: Bounds<T>,
        entry: Entry<T>,
    ) -> bool
        ensures { result ≡ passes T.Ordered.before side self.rank declared (offset_of side self) self.size bounds entry }
    {
        let place = self.place_asked(side);
        entry_kind(entry) == self.kind_at(side, declared, place)
            && !entry.is_before(bounds.low)
            && !bounds.high.is_before(entry)
            && !(self.asks_again(side) && entry.is_before(bounds.high))
    }
}

/// What an entry is, apart from which element it is.
pub(crate) fn entry_kind<T: Ordered>(entry: Entry<T>) -> EntryKind
    ensures { result ≡ entry_kind entry }
{
    match entry {
        Entry::Below => EntryKind::Below,
        Entry::Element(_) => EntryKind::Element,
        Entry::Above => EntryKind::Above,
    }
}
