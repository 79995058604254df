ghost use Rattle.std.specs.Prelude.{◌≡◌};
ghost use Rattle.referees.specs.Operands.{entry_of, operand_of};

use elements::entry::Entry;
use elements::ordered::Ordered;

/// What an entry is, apart from which element it is.
#[derive(Clone, Copy, Debug, PartialEq, Eq)]
pub enum EntryKind {
    Below,
    Element,
    Above,
}

/// An entry as a question takes it: its kind, and an element whatever the kind is. A mark is asked about with the type's
/// sample, so that it is asked about exactly as an element is.
#[derive(Clone, Copy, Debug, PartialEq, Eq)]
pub struct Operand<T> {
    pub kind: EntryKind,
    pub element: T,
}

impl<T: Ordered> From<Entry<T>> for Operand<T> {
    ghost from_gives = { λ entry operand. operand ≡ operand_of T.Ordered.sample entry };

    fn from(entry: Entry<T>) -> Operand<T>
        ensures operand { result ≡ operand_of T.Ordered.sample entry }
        ensures shows_it { entry_of result ≡ entry }
    {
        match entry {
            Entry::Below => Operand {
                kind: EntryKind::Below,
                element: T::sample(),
            },
            Entry::Element(element) => Operand {
                kind: EntryKind::Element,
                element,
            },
            Entry::Above => Operand {
                kind: EntryKind::Above,
                element: T::sample(),
            },
        }
    }
}

impl<T: Ordered> Operand<T> {
    // Not a `From`: a crate that lists `rankunit` alone does not reach an impl for `Entry` that stands here.
    /// The entry of this operand; an element that goes with a mark is not looked at.
    pub fn entry(self) -> Entry<T>
        ensures { result ≡ entry_of self }
    {
        match self.kind {
            EntryKind::Below => Entry::Below,
            EntryKind::Element => Entry::Element(self.element),
            EntryKind::Above => Entry::Above,
        }
    }
}
