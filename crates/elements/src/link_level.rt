ghost use Rattle.std.specs.Prelude.{◌-◌, ◌^◌, ◌<◌, pos, negsuc, ◌≤ℤ◌};

use crate::ordered::{Ordered, OrderedByCmp, sample_number};
use crate::placed::Placed;
use std::cmp::Ordering;
use std::fmt;

/// The level of a link, in hundredths of dBm, with the link's number.
#[repr(C)]
#[derive(Clone, Copy, Debug, PartialEq, Eq)]
pub struct LinkLevel {
    pub level: i32,
    pub link: u32,
    ghost low: { negsuc (2 ^ 31 - 1) ≤ℤ level },
    ghost high: { level ≤ℤ pos (2 ^ 31 - 1) },
    ghost fits: { link < 2 ^ 32 },
}

/// By level, then by link, which is by place.
impl Ord for LinkLevel {
    ghost use Rattle.std.specs.Cmp.Rules.{comparing};
    ghost use Rattle.std.proofs.Common.{rules};
    ghost use Rattle.elements.specs.LinkLevels.{level_cmp};

    ghost cmp = { level_cmp };

    ghost total = { Prim.search (comparing, rules) };

    ghost matches_partial_cmp = { Prim.search (comparing, rules) };

    ghost matches_eq = { Prim.search (comparing, rules) };

    #[tactic(auto, using(crate::specs::LevelPlaces::places_compare))]
    fn cmp(&self, other: &LinkLevel) -> Ordering {
        self.place_number().cmp(&other.place_number())
    }
}

impl PartialOrd for LinkLevel {
    ghost use Rattle.std.specs.Ordering.{as_partial_cmp};
    ghost use Rattle.std.specs.Cmp.{partial_order_from_own_ties};
    ghost use Rattle.std.specs.Cmp.Rules.{comparing};
    ghost use Rattle.std.proofs.Common.{rules};
    ghost use Rattle.elements.specs.LinkLevels.{level_cmp};

    ghost partial_cmp = { as_partial_cmp level_cmp };

    ghost laws = { partial_order_from_own_ties (Prim.search (comparing, rules)) (Prim.search (comparing, rules)) };

    fn partial_cmp(&self, other: &LinkLevel) -> Option<Ordering> {
        Some(self.cmp(other))
    }
}

impl Ordered for LinkLevel {
    ghost use Rattle.elements.specs.LinkLevels.{level_before, level_zero};
    ghost use Rattle.elements.specs.LevelPlaces.{levels_order};

    ghost before = { level_before };

    ghost sample = { level_zero };

    ghost law = { levels_order };

    fn is_before(self, other: LinkLevel) -> bool {
        self < other
    }

    fn sample() -> LinkLevel {
        LinkLevel {
            level: 0,
            link: sample_number(),
        }
    }
}

impl OrderedByCmp for LinkLevel {
    ghost use Rattle.std.proofs.Common.{rules};
    ghost use Rattle.elements.specs.LevelPlaces.{levels_order};

    ghost law = { record { order = levels_order; by_cmp = Prim.search rules } };
}

impl Placed for LinkLevel {
    ghost use Rattle.std.specs.Prelude.{◌-◌, ◌^◌};
    ghost use Rattle.std.proofs.Common.{rules};
    ghost use Rattle.elements.specs.LinkLevels.{level_place};
    ghost use Rattle.elements.specs.LevelPlaces.{level_agrees, levels_complete};

    ghost place = { level_place };

    const LOWEST: u64 = 0;

    ghost LOWEST = { 0 };

    const HIGHEST: u64 = u64::MAX;

    ghost HIGHEST = { 2 ^ 64 - 1 };

    ghost law = { record {
      agrees = level_agrees;
      fits = Prim.search rules;
      within = Prim.search rules;
      complete = levels_complete;
    } };

    fn place_number(self) -> u64 {
        (self.level as i64 + 0x8000_0000) as u64 * 0x1_0000_0000 + self.link as u64
    }

    fn at_place(n: u64) -> Option<LinkLevel> {
        let level = (n / 0x1_0000_0000) as i64 - 0x8000_0000;
        let link = n % 0x1_0000_0000;
        Some(LinkLevel {
            level: level as i32,
            link: link as u32,
        })
    }
}

impl fmt::Display for LinkLevel {
    ghost use Rattle.std.specs.Prelude.{Some};
    ghost use Rattle.elements.specs.Printing.{level_text};

    ghost output = { λ x. Some (level_text x) };

    fn fmt<W: fmt::Write>(&self, f: &mut fmt::Formatter<W>) -> fmt::Result {
        let LinkLevel { level, link } = self;
        write!(f, "{level} link {link}")
    }
}
