ghost use Rattle.std.specs.Prelude.{◌≡◌, ℕ, ◌^◌, ◌<◌, ◌≤◌, nat_lt};
ghost use Rattle.elements.specs.Orders.{PlaceLaw, AtPlace};

use crate::ordered::Ordered;

/// An ordered type whose elements have places: whole numbers from the type's lowest to its highest,
/// each the place of exactly one element.
pub trait Placed: Ordered {
    ghost place: { Self → ℕ };

    /// The lowest of the type's places.
    const LOWEST: u64;

    ghost LOWEST: { ℕ };

    /// The highest of the type's places.
    const HIGHEST: u64;

    ghost HIGHEST: { ℕ };

    // Not `From`, and `at_place` not `TryFrom`: their contracts could not name the type's places.
    /// This element's place.
    fn place_number(self) -> u64
        ensures { result ≡ place self };

    /// The element at a place, or none where the number is no place of the type.
    fn at_place(n: u64) -> Option<Self>
        ensures { AtPlace place LOWEST HIGHEST n result };

    /// Whether this element is before the other, in the type's order and by places alike.
    final fn precedes(self, other: Self) -> bool
        ensures by_order { result ≡ Self.Ordered.before self other }
        ensures by_places { result ≡ nat_lt (place self) (place other) }
    {
        self.place_number() < other.place_number()
    }

    ghost law: { PlaceLaw Self.Ordered.before place LOWEST HIGHEST };
}
