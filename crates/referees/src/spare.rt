ghost use Rattle.std.specs.Prelude.{◌≡◌, IfOk};
ghost use Rattle.referees.specs.Questions.{OneQuestion, AsksFirst, AsksLesser};
ghost use Rattle.referees.specs.Spares.{SpendsInTurn, spare_stock};

use crate::operand::Operand;
use crate::query::{First, Lesser, Query};
use crate::referee::{Referee, Stocked};
use crate::sums::Sums;
use crate::verdict::{GroupVerdict, PairVerdict};
use elements::entry::Entry;
use elements::ordered::Ordered;
use faults::fault::RunFault;
use std::marker::Model;

/// A layer over two referees, the second of which is used once the first is empty.
#[derive(Drop)]
pub struct Spare<R, S> {
    main: R,
    spare: S,
}

/// A contract sees its two referees.
impl<R, S> Model for Spare<R, S> {
    ghost use Rattle.referees.specs.Spares.{SpareParts};

    ghost Value = { SpareParts R S };

    ghost view = { λ spare. record { first = spare.main; second = spare.spare } };
}

impl<R, S> Spare<R, S> {
    pub fn new(main: R, spare: S) -> Spare<R, S>
        ensures { (result.first ≡ main) × (result.second ≡ spare) }
    {
        Spare { main, spare }
    }

    /// Puts a question to the first, or to the second once the first is empty.
    fn ask_in_turn<T: Ordered, Q: Query<T>>(&mut self, question: Q) -> Result<Q::Answer, RunFault>
    where
        R: Referee<T>,
        S: Referee<T>,
        ensures answers { OneQuestion (spare_stock R.Stocked.stock S.Stocked.stock) self.old self.new (Q.truth question) result }
        ensures spends { IfOk result (λ answer. SpendsInTurn R.Stocked.stock R.Referee.spends S.Stocked.stock S.Referee.spends self.old self.new) }
    {
        if self.main.left() > 0 {
            question.ask(&mut self.main)
        } else {
            question.ask(&mut self.spare)
        }
    }
}

impl<R: Stocked, S: Stocked> Stocked for Spare<R, S> {
    ghost stock = { spare_stock R.Stocked.stock S.Stocked.stock };

    fn left(&self) -> u32 {
        self.main.left().saturating_add(self.spare.left())
    }
}

impl<T: Ordered, R: Referee<T>, S: Referee<T>> Referee<T> for Spare<R, S> {
    ghost spends = { SpendsInTurn R.Stocked.stock R.Referee.spends S.Stocked.stock S.Referee.spends };

    // Two questions, with answers of two types. Rattle cannot yet give them their trait's clauses, which name the order of `T`.
    fn first(&mut self, a: Operand<T>, b: Operand<T>) -> Result<PairVerdict, RunFault>
        ensures answers { AsksFirst T.Ordered.before (spare_stock R.Stocked.stock S.Stocked.stock) self.old self.new a b result }
        ensures spends { IfOk result (λ answer. SpendsInTurn R.Stocked.stock R.Referee.spends S.Stocked.stock S.Referee.spends self.old self.new) }
    {
        self.ask_in_turn(First { a, b })
    }

    fn lesser(&mut self, a: Operand<T>, b: Operand<T>) -> Result<Entry<T>, RunFault>
        ensures answers { AsksLesser T.Ordered.before (spare_stock R.Stocked.stock S.Stocked.stock) self.old self.new a b result }
        ensures spends { IfOk result (λ answer. SpendsInTurn R.Stocked.stock R.Referee.spends S.Stocked.stock S.Referee.spends self.old self.new) }
    {
        self.ask_in_turn(Lesser { a, b })
    }

    fn weigh(&mut self, sums: Sums) -> Result<GroupVerdict, RunFault> {
        self.ask_in_turn(sums)
    }
}
