ghost use Rattle.std.specs.Prelude.{◌≡◌, nat_lt};
ghost use Rattle.elements.specs.ByPlaces.{numbers_order};
ghost use Rattle.std.proofs.Common.{rules};

use crate::ordered::{Ordered, OrderedByCmp, sample_number};

/// Place numbers are an ordered type, so that entries of places compare as entries of any other type do.
impl Ordered for u64 {
    ghost before = { nat_lt };

    ghost sample = { 0 };

    fn is_before(self, other: u64) -> bool {
        self < other
    }

    fn sample() -> u64 {
        sample_number() as u64
    }

    ghost law = { numbers_order };
}

impl OrderedByCmp for u64 {
    ghost law = { record { order = numbers_order; by_cmp = Prim.search rules } };
}
