ghost use Rattle.std.specs.Prelude.{◌≡◌, Bool};
ghost use Rattle.elements.specs.Orders.{IsOrder, OrderLaw};

/// A type whose elements stand in an order without ties: what is neither before nor after is equal.
pub trait Ordered: Copy {
    ghost before: { Self → Self → Bool };

    ghost sample: { Self };

    /// Whether this element is before the other.
    fn is_before(self, other: Self) -> bool
        ensures { result ≡ before self other };

    /// Some element, always the same: it stands in where a value is needed and none matters.
    fn sample() -> Self
        ensures { result ≡ sample };

    ghost law: { IsOrder before };
}

/// An ordered type with an `Ord` of its own, which calls less what is before.
pub trait OrderedByCmp: Ordered + Ord {
    ghost law: { OrderLaw Self.Ordered.before Self.Ord.cmp };
}

/// The number in the sample elements of the types here.
pub(crate) fn sample_number() -> u32
    ensures { result ≡ 0 }
{
    u32::MIN
}
