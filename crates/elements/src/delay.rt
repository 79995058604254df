ghost use Rattle.std.specs.Prelude.{◌^◌, ◌<◌};

use crate::ordered::{Ordered, OrderedByCmp, sample_number};
use crate::placed::Placed;
use std::fmt;

/// A delay, counted in microseconds.
#[repr(C)]
#[derive(Clone, Copy, Debug, PartialEq, Eq, PartialOrd, Ord)]
pub struct Delay {
    pub micros: u32,
    ghost fits: { micros < 2 ^ 32 },
}

impl Ordered for Delay {
    ghost use Rattle.elements.specs.Delays.{delay_before, delay_zero};
    ghost use Rattle.elements.specs.DelayPlaces.{delays_order};

    ghost before = { delay_before };

    ghost sample = { delay_zero };

    ghost law = { delays_order };

    fn is_before(self, other: Delay) -> bool {
        self < other
    }

    fn sample() -> Delay {
        Delay {
            micros: sample_number(),
        }
    }
}

impl OrderedByCmp for Delay {
    ghost use Rattle.std.proofs.Common.{rules};
    ghost use Rattle.elements.specs.DelayPlaces.{delays_order};

    ghost law = { record { order = delays_order; by_cmp = Prim.search rules } };
}

impl Placed for Delay {
    ghost use Rattle.std.specs.Prelude.{◌-◌, ◌^◌};
    ghost use Rattle.elements.specs.DelayPlaces.{delays_complete};
    ghost use Rattle.std.proofs.Common.{rules};

    ghost place = { λ x. x.micros };

    const LOWEST: u64 = 0;

    ghost LOWEST = { 0 };

    const HIGHEST: u64 = 0xffff_ffff;

    ghost HIGHEST = { 2 ^ 32 - 1 };

    ghost law = { record {
      agrees = Prim.search rules;
      fits = Prim.search rules;
      within = Prim.search rules;
      complete = delays_complete;
    } };

    fn place_number(self) -> u64 {
        self.micros as u64
    }

    fn at_place(n: u64) -> Option<Delay> {
        let micros = u32::try_from(n).ok()?;
        Some(Delay { micros })
    }
}

impl fmt::Display for Delay {
    ghost use Rattle.std.specs.Prelude.{Some};
    ghost use Rattle.elements.specs.Printing.{delay_text};

    ghost output = { λ x. Some (delay_text x) };

    fn fmt<W: fmt::Write>(&self, f: &mut fmt::Formatter<W>) -> fmt::Result {
        let Delay { micros } = self;
        write!(f, "{micros}")
    }
}
