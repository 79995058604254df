ghost use Rattle.std.specs.Prelude.{◌≡◌};
ghost use Rattle.faults.specs.RefusalNumbers.{number_of, spot_of};

/// The condition under which a call refuses, one variant a condition.
///
/// The spot of a refusal is an element's number in its list, counted from 1.
#[derive(Clone, Copy, Debug, PartialEq, Eq)]
pub enum Refusal {
    /// A sheet has under 6 bytes.
    SheetTooShort,
    /// A sheet's version is not 1.
    VersionUnknown,
    /// A sheet's count differs from the number of bytes after it.
    CountDiffers,
    /// A sheet's kind is not the one wanted.
    KindNotWanted,
    /// A sheet's body is no whole number of elements, or has over 65,536 of them.
    BodyNotAList,
    /// The element at the spot is before its predecessor.
    OutOfOrder(u64),
    /// The element slice is shorter than the list.
    SliceTooShort,
    /// A group has under 2 or over 16 seats.
    SeatsOutOfBounds,
    /// A list is longer than 65,536, or declared so.
    ListTooLong,
    /// A range of places is empty, or not within the type's places.
    RangeNotPlaces,
    /// A rank is 0 or above the number of elements, or its percentile is not 1 to 99.
    RankOutOfBounds,
    /// The element at the spot is the first outside the range of places.
    OutsideRange(u64),
    /// The seat does not exist, or has reported this round.
    NotItsTurn,
    /// No list of the declared length explains the report together with the earlier ones.
    Impossible,
    /// A seat has not reported this round.
    ReportMissing,
    /// The referee has no question left.
    StockEmpty,
}

impl Refusal {
    /// The number by which a refusal is known outside. A `From` into `u8` would not say what the number is.
    pub fn number(self) -> u8
        ensures { result ≡ number_of self }
    {
        match self {
            Refusal::SheetTooShort => 1,
            Refusal::VersionUnknown => 2,
            Refusal::CountDiffers => 3,
            Refusal::KindNotWanted => 4,
            Refusal::BodyNotAList => 5,
            Refusal::OutOfOrder(_) => 6,
            Refusal::SliceTooShort => 7,
            Refusal::SeatsOutOfBounds => 8,
            Refusal::ListTooLong => 9,
            Refusal::RangeNotPlaces => 10,
            Refusal::RankOutOfBounds => 11,
            Refusal::OutsideRange(_) => 12,
            Refusal::NotItsTurn => 13,
            Refusal::Impossible => 14,
            Refusal::ReportMissing => 15,
            Refusal::StockEmpty => 16,
        }
    }

    /// The number of the element that the refusal is about, where it is about one.
    pub fn spot(self) -> Option<u64>
        ensures { result ≡ spot_of self }
    {
        match self {
            Refusal::OutOfOrder(spot) | Refusal::OutsideRange(spot) => Some(spot),
            _ => None,
        }
    }
}
