ghost use Rattle.std.specs.Prelude.{◌≡◌, ℕ, IfOk};
ghost use Rattle.referees.specs.Questions.{AsksFirst, AsksLesser, AsksWeight, out_of_stock, OneQuestion};
ghost use Rattle.elements.specs.Limits.{saturated};
ghost use Rattle.referees.specs.LentReferees.{lent_stock, lent_spends};
ghost use Rattle.referees.specs.Verdicts.{first_of};
ghost use Rattle.elements.specs.Entries.{lesser_entry};

use crate::operand::Operand;
use crate::sums::Sums;
use crate::verdict::{GroupVerdict, PairVerdict};
use elements::entry::Entry;
use elements::ordered::Ordered;
use faults::fault::RunFault;
use faults::refusal::Refusal;

/// Whoever has a stock: how many questions it can still answer, of whatever type the entries are.
pub trait Stocked {
    ghost stock: { Self → ℕ };

    /// The stock, or the greatest number that fits the answer where the stock is larger.
    fn left(&self) -> u32
        ensures stock { result ≡ saturated (stock self.now) };
}

/// Whoever answers three questions, each at the cost of one from its stock. With an empty stock each is refused with
/// `StockEmpty` and the referee stays as it was. A question takes A's entry `a` and B's entry `b` each as its kind and an
/// element; what goes with a mark does not matter.
pub trait Referee<T: Ordered>: Stocked {
    /// What an answered question costs, from one state of the referee to the next: which part pays, which the stock of a
    /// whole does not tell.
    ghost spends: { Self → Self → Type 0 };

    /// Whether A's entry is before B's.
    fn first(&mut self, a: Operand<T>, b: Operand<T>) -> Result<PairVerdict, RunFault>
        ensures answers { AsksFirst T.Ordered.before Self.stock self.old self.new a b result }
        ensures spends { IfOk result (λ answer. spends self.old self.new) };

    /// A's entry if it is before B's, else B's.
    fn lesser(&mut self, a: Operand<T>, b: Operand<T>) -> Result<Entry<T>, RunFault>
        ensures answers { AsksLesser T.Ordered.before Self.stock self.old self.new a b result }
        ensures spends { IfOk result (λ answer. spends self.old self.new) };

    /// Lower if the sum below is at least `k`; else higher if the sum above and `k` together pass `n`; else done.
    fn weigh(&mut self, sums: Sums) -> Result<GroupVerdict, RunFault>
        ensures answers { AsksWeight Self.stock self.old self.new sums result }
        ensures spends { IfOk result (λ answer. spends self.old self.new) };
}

impl<'a, R: Stocked> Stocked for &'a mut R {
    ghost stock = { lent_stock R.Stocked.stock };

    fn left(&self) -> u32 {
        (**self).left()
    }
}

/// A lent referee is a referee: every question to it goes to the referee behind it, each by the method of its name.
impl<'a, T: Ordered, R: Referee<T>> Referee<T> for &'a mut R {
    ghost spends = { lent_spends R.Referee.spends };

    // Two questions, with answers of two types. Rattle cannot yet give them their trait's clauses, which name the order of `T`.
    fn first(&mut self, a: Operand<T>, b: Operand<T>) -> Result<PairVerdict, RunFault>
        ensures answers { AsksFirst T.Ordered.before (lent_stock R.Stocked.stock) self.old self.new a b result }
        ensures spends { IfOk result (λ answer. lent_spends R.Referee.spends self.old self.new) }
    {
        (**self).first(a, b)
    }

    fn lesser(&mut self, a: Operand<T>, b: Operand<T>) -> Result<Entry<T>, RunFault>
        ensures answers { AsksLesser T.Ordered.before (lent_stock R.Stocked.stock) self.old self.new a b result }
        ensures spends { IfOk result (λ answer. lent_spends R.Referee.spends self.old self.new) }
    {
        (**self).lesser(a, b)
    }

    fn weigh(&mut self, sums: Sums) -> Result<GroupVerdict, RunFault> {
        (**self).weigh(sums)
    }
}

/// How every referee refuses a question.
pub fn out_of_stock() -> RunFault
    ensures { result ≡ out_of_stock }
{
    RunFault::Own(Refusal::StockEmpty, None)
}

// Each of the two is one call, by the name of its question.

/// Asks a referee whether A's entry is before B's, marks as elements.
pub fn ask_first<T: Ordered, R: Referee<T>>(
    referee: &mut R,
    a: Entry<T>,
    b: Entry<T>,
) -> Result<PairVerdict, RunFault>
    ensures answers { OneQuestion R.Stocked.stock referee.old referee.new (first_of T.Ordered.before a b) result }
    ensures spends { IfOk result (λ answer. R.Referee.spends referee.old referee.new) }
{
    referee.first(Operand::from(a), Operand::from(b))
}

/// Asks a referee for the lesser of two entries, marks as elements.
pub fn ask_lesser<T: Ordered, R: Referee<T>>(
    referee: &mut R,
    a: Entry<T>,
    b: Entry<T>,
) -> Result<Entry<T>, RunFault>
    ensures answers { OneQuestion R.Stocked.stock referee.old referee.new (lesser_entry T.Ordered.before a b) result }
    ensures spends { IfOk result (λ answer. R.Referee.spends referee.old referee.new) }
{
    referee.lesser(Operand::from(a), Operand::from(b))
}
