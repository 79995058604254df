ghost use Rattle.std.specs.Prelude.{◌≡◌};
ghost use Rattle.rankunit.specs.Faults.RefusalNumbers.{number_of};
ghost use Rattle.rankunit_c.specs.Numbers.{layer_number, seat_number, spot_number};

use rankunit::{Layer, Refusal, Seat};

/// The number of a layer.
pub(crate) fn layer_number(layer: Layer) -> u32
    ensures { result ≡ layer_number layer }
{
    match layer {
        Layer::Sheet => 1,
        Layer::Seat => 2,
        Layer::Run => 3,
    }
}

/// The number of a seat, or 0 for none.
pub(crate) fn seat_number(seat: Option<Seat>) -> u32
    ensures { result ≡ seat_number seat }
{
    match seat {
        None => 0,
        Some(Seat::A) => 1,
        Some(Seat::B) => 2,
        Some(Seat::Numbered(number)) => number,
    }
}

/// The number of a refusal.
pub(crate) fn refusal_number(refusal: Refusal) -> u32
    ensures { result ≡ number_of refusal }
{
    refusal.number() as u32
}

/// The spot of a refusal, or 0 where it has none.
pub(crate) fn spot_number(refusal: Refusal) -> u64
    ensures { result ≡ spot_number refusal }
{
    refusal.spot().unwrap_or(0)
}
