ghost use Rattle.std.specs.Prelude.{refl, ◌≡◌};
ghost use Rattle.elements.specs.Entries.{entry_before, lesser_entry};
ghost use Rattle.elements.specs.declared.entry.Entry.TheVariants.{Below, Element, Above};
ghost use Rattle.elements.specs.EntryLaws.{entries_order};
ghost use Rattle.elements.specs.Printing.{entry_text};

use crate::ordered::{Ordered, OrderedByCmp};
use std::fmt;

/// What a row holds at a place: an element, or a mark that is below or above every element.
#[derive(Clone, Copy, Debug, PartialEq, Eq, PartialOrd, Ord)]
pub enum Entry<T> {
    Below,
    Element(T),
    Above,
}

/// Entries of an ordered type are an ordered type.
impl<T: Ordered> Ordered for Entry<T> {
    ghost before = { entry_before T.Ordered.before };

    ghost sample = { Element T.Ordered.sample };

    ghost law = { entries_order T.Ordered.before T.Ordered.law };

    // Not by the derived `Ord`, which only entries of a type with an `Ord` have.
    fn is_before(self, other: Entry<T>) -> bool {
        match (self, other) {
            (Entry::Element(x), Entry::Element(y)) => x.is_before(y),
            (Entry::Below, Entry::Below) => false,
            (Entry::Below, _) => true,
            (Entry::Element(_), Entry::Above) => true,
            _ => false,
        }
    }

    fn sample() -> Entry<T> {
        Entry::Element(T::sample())
    }
}

impl<T: OrderedByCmp> OrderedByCmp for Entry<T> {
    ghost law = { record {
      order = entries_order T.Ordered.before T.Ordered.law;
      by_cmp = elim [
        | Below ↦ elim [ Below ↦ refl | Element y ↦ refl | Above ↦ refl ]
        | Element x ↦ elim [ Below ↦ refl | Element y ↦ T.OrderedByCmp.law.by_cmp x y | Above ↦ refl ]
        | Above ↦ elim [ Below ↦ refl | Element y ↦ refl | Above ↦ refl ]
      ];
    } };
}

impl<T: Ordered> Entry<T> {
    /// This entry if it is before the other, else the other.
    pub fn lesser(self, other: Entry<T>) -> Entry<T>
        ensures { result ≡ lesser_entry T.Ordered.before self other }
    {
        if self.is_before(other) { self } else { other }
    }
}

impl<T: fmt::Display> fmt::Display for Entry<T> {
    ghost output = { entry_text T.Display.output };

    fn fmt<W: fmt::Write>(&self, f: &mut fmt::Formatter<W>) -> fmt::Result {
        match self {
            Entry::Below => write!(f, "below"),
            Entry::Element(element) => write!(f, "{element}"),
            Entry::Above => write!(f, "above"),
        }
    }
}
