ghost use Rattle.std.specs.Prelude.{◌≡◌, IfOk};
ghost use Rattle.referees.specs.Questions.{OneQuestion, AsksFirst, AsksLesser};
ghost use Rattle.referees.specs.Quotas.{LowersBoth, quota_stock};

use crate::operand::Operand;
use crate::query::{First, Lesser, Query};
use crate::referee::{Referee, Stocked, out_of_stock};
use crate::sums::Sums;
use crate::verdict::{GroupVerdict, PairVerdict};
use elements::entry::Entry;
use elements::limits::saturated;
use elements::ordered::Ordered;
use faults::fault::RunFault;
use std::marker::Model;

/// A layer over a referee that lets no more than a number of questions through to it.
#[derive(Drop)]
pub struct Quota<R> {
    own: u64,
    below: R,
}

/// A contract sees its own number and the referee below.
impl<R> Model for Quota<R> {
    ghost use Rattle.referees.specs.Quotas.{QuotaParts};

    ghost Value = { QuotaParts R };

    ghost view = { λ quota. record { own = quota.own; below = quota.below } };
}

impl<R> Quota<R> {
    pub fn new(own: u64, below: R) -> Quota<R>
        ensures { (result.own ≡ own) × (result.below ≡ below) }
    {
        Quota { own, below }
    }

    /// Lets a question through to the referee below, if its own number allows.
    fn let_through<T: Ordered, Q: Query<T>>(&mut self, question: Q) -> Result<Q::Answer, RunFault>
    where
        R: Referee<T>,
        ensures answers { OneQuestion (quota_stock R.Stocked.stock) self.old self.new (Q.truth question) result }
        ensures spends { IfOk result (λ answer. LowersBoth R.Stocked.stock R.Referee.spends self.old self.new) }
    {
        let left = self.own.checked_sub(1).ok_or_else(out_of_stock)?;
        let answer = question.ask(&mut self.below)?;
        self.own = left;
        Ok(answer)
    }
}

impl<R: Stocked> Stocked for Quota<R> {
    ghost stock = { quota_stock R.Stocked.stock };

    fn left(&self) -> u32 {
        saturated(self.own.min(self.below.left() as u64))
    }
}

impl<T: Ordered, R: Referee<T>> Referee<T> for Quota<R> {
    ghost spends = { LowersBoth R.Stocked.stock R.Referee.spends };

    // Two questions, with answers of two types. Rattle cannot yet give them their trait's clauses, which name the order of `T`.
    fn first(&mut self, a: Operand<T>, b: Operand<T>) -> Result<PairVerdict, RunFault>
        ensures answers { AsksFirst T.Ordered.before (quota_stock R.Stocked.stock) self.old self.new a b result }
        ensures spends { IfOk result (λ answer. LowersBoth R.Stocked.stock R.Referee.spends self.old self.new) }
    {
        self.let_through(First { a, b })
    }

    fn lesser(&mut self, a: Operand<T>, b: Operand<T>) -> Result<Entry<T>, RunFault>
        ensures answers { AsksLesser T.Ordered.before (quota_stock R.Stocked.stock) self.old self.new a b result }
        ensures spends { IfOk result (λ answer. LowersBoth R.Stocked.stock R.Referee.spends self.old self.new) }
    {
        self.let_through(Lesser { a, b })
    }

    fn weigh(&mut self, sums: Sums) -> Result<GroupVerdict, RunFault> {
        self.let_through(sums)
    }
}
