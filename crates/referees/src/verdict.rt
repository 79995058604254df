ghost use Rattle.std.specs.Prelude.{◌≡◌, Some};
ghost use Rattle.referees.specs.Verdicts.{verdict_if, verdict_number, first_of, weight_of_sums, pair_verdict_text, group_verdict_text};

use crate::sums::Sums;
use elements::entry::Entry;
use elements::ordered::Ordered;
use std::fmt;

/// The answer to *first*: whether A's entry is before B's.
#[derive(Clone, Copy, Debug, PartialEq, Eq)]
pub enum PairVerdict {
    NotBefore = 0,
    Before = 1,
}

/// The answer to *weigh*: where the element of rank k is, seen from the place asked about.
#[derive(Clone, Copy, Debug, PartialEq, Eq)]
pub enum GroupVerdict {
    Lower,
    Higher,
    Done,
}

/// The verdict of a test whether A's entry is before B's.
impl From<bool> for PairVerdict {
    ghost from_gives = { λ before verdict. verdict ≡ verdict_if before };

    fn from(before: bool) -> PairVerdict {
        if before {
            PairVerdict::Before
        } else {
            PairVerdict::NotBefore
        }
    }
}

impl PairVerdict {
    /// The verdict on A's entry and B's.
    pub fn on<T: Ordered>(a: Entry<T>, b: Entry<T>) -> PairVerdict
        ensures { result ≡ first_of T.Ordered.before a b }
    {
        PairVerdict::from(a.is_before(b))
    }

    /// The value of the answer; a `From` into `u8` would not say what the number is.
    pub fn number(self) -> u8
        ensures { result ≡ verdict_number self }
    {
        self as u8
    }
}

impl GroupVerdict {
    /// The verdict on a group's sums. They are added in 64 bits, so that nothing wraps.
    pub fn on(sums: Sums) -> GroupVerdict
        ensures { result ≡ weight_of_sums sums }
    {
        if sums.below >= sums.k {
            GroupVerdict::Lower
        } else if sums.above as u64 + sums.k as u64 > sums.n as u64 {
            GroupVerdict::Higher
        } else {
            GroupVerdict::Done
        }
    }
}

impl fmt::Display for PairVerdict {
    ghost output = { λ x. Some (pair_verdict_text x) };

    fn fmt<W: fmt::Write>(&self, f: &mut fmt::Formatter<W>) -> fmt::Result {
        self.number().fmt(f)
    }
}

impl fmt::Display for GroupVerdict {
    ghost output = { λ x. Some (group_verdict_text x) };

    fn fmt<W: fmt::Write>(&self, f: &mut fmt::Formatter<W>) -> fmt::Result {
        match self {
            GroupVerdict::Lower => write!(f, "lower"),
            GroupVerdict::Higher => write!(f, "higher"),
            GroupVerdict::Done => write!(f, "done"),
        }
    }
}
