ghost use Rattle.std.specs.Prelude.{IfOk};
ghost use Rattle.referees.specs.Questions.{OneQuestion};
ghost use Rattle.referees.specs.Operands.{entry_of};
ghost use Rattle.referees.specs.Verdicts.{first_of, weight_of_sums};
ghost use Rattle.elements.specs.Entries.{lesser_entry};

use crate::operand::Operand;
use crate::referee::Referee;
use crate::sums::Sums;
use crate::verdict::{GroupVerdict, PairVerdict};
use elements::entry::Entry;
use elements::ordered::Ordered;
use faults::fault::RunFault;

/// One of the three questions with what it asks about, so that a layer passes on each in the same way.
pub trait Query<T: Ordered>: Copy {
    type Answer;

    /// The true answer.
    ghost truth: { Self → Self.Answer };

    /// Puts the question to a referee.
    fn ask<R: Referee<T>>(self, referee: &mut R) -> Result<Self::Answer, RunFault>
        ensures answers { OneQuestion R.Stocked.stock referee.old referee.new (truth self) result }
        ensures spends { IfOk result (λ answer. R.Referee.spends referee.old referee.new) };
}

// `First` and `Lesser` hold the same, and are two types because they are two questions with answers of their own.

/// Whether A's entry is before B's.
#[derive(Clone, Copy, Debug, PartialEq, Eq)]
pub struct First<T> {
    pub a: Operand<T>,
    pub b: Operand<T>,
}

/// A's entry if it is before B's, else B's.
#[derive(Clone, Copy, Debug, PartialEq, Eq)]
pub struct Lesser<T> {
    pub a: Operand<T>,
    pub b: Operand<T>,
}

impl<T: Ordered> Query<T> for First<T> {
    type Answer = PairVerdict;

    ghost truth = { λ q. first_of T.Ordered.before (entry_of q.a) (entry_of q.b) };

    fn ask<R: Referee<T>>(self, referee: &mut R) -> Result<PairVerdict, RunFault> {
        referee.first(self.a, self.b)
    }
}

impl<T: Ordered> Query<T> for Lesser<T> {
    type Answer = Entry<T>;

    ghost truth = { λ q. lesser_entry T.Ordered.before (entry_of q.a) (entry_of q.b) };

    fn ask<R: Referee<T>>(self, referee: &mut R) -> Result<Entry<T>, RunFault> {
        referee.lesser(self.a, self.b)
    }
}

impl<T: Ordered> Query<T> for Sums {
    type Answer = GroupVerdict;

    ghost truth = { weight_of_sums };

    fn ask<R: Referee<T>>(self, referee: &mut R) -> Result<GroupVerdict, RunFault> {
        referee.weigh(self)
    }
}
