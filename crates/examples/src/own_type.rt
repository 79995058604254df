ghost use Rattle.std.specs.Prelude.{◌^◌, ◌<◌};

use elements::ordered::Ordered;
use faults::fault_info::{HasNotice, Layer, Notice};
use sheets::sheet_element::SheetElement;

/// A number of hops, as an element type of a user's own: more hops are before fewer, though its `Ord` goes by the number, and its
/// kind of sheet has no name.
#[derive(Clone, Copy, Debug, PartialEq, Eq, PartialOrd, Ord)]
pub struct Hops {
    pub number: u32,
    ghost fits: { number < 2 ^ 32 },
}

impl Ordered for Hops {
    ghost use Rattle.examples.specs.OwnType.{hops_before, no_hops, hops_order};

    ghost before = { hops_before };

    ghost sample = { no_hops };

    ghost law = { hops_order };

    fn is_before(self, other: Hops) -> bool {
        self.number > other.number
    }

    fn sample() -> Hops {
        Hops { number: 0 }
    }
}

impl SheetElement for Hops {
    ghost use Rattle.std.specs.Prelude.{refl};
    ghost use Rattle.std.proofs.Common.{rules};
    ghost use Rattle.sheets.specs.Digits.{digits_apart, first_four, first_four_fits, digits_of_list};
    ghost use Rattle.examples.specs.OwnType.{hops_format, hops_alike};

    ghost format = { hops_format };

    const BYTES_EACH: usize = 4;

    ghost BYTES_EACH = { 4 };

    ghost law = { record {
      each = refl;
      some = Prim.search rules;
      few = Prim.search rules;
      fixed = Prim.search rules;
      distinct = λ x y e. hops_alike x y (digits_apart x.number y.number x.fits y.fits e);
      complete = λ bytes e h. (record { number = first_four bytes; fits = first_four_fits bytes h }, digits_of_list bytes e h);
    } };

    fn kind_byte() -> u8 {
        9
    }

    fn decode(bytes: &[u8]) -> Option<Hops> {
        let number = u32::from_be_bytes(<[u8; 4]>::try_from(bytes).ok()?);
        Some(Hops { number })
    }
}

/// A fault of a user's own: more hops than are allowed, with a number that no refusal here has.
#[derive(Clone, Copy, Debug, PartialEq, Eq)]
pub struct TooManyHops {
    pub hops: Hops,
}

impl HasNotice for TooManyHops {
    ghost use Rattle.examples.specs.OwnType.{too_many_hops};

    ghost tells = { too_many_hops };

    fn notice(self) -> Notice {
        Notice {
            number: 99,
            layer: Layer::Run,
            seat: None,
            spot: Some(self.hops.number as u64),
        }
    }
}
