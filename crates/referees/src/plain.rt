ghost use Rattle.std.specs.Prelude.{◌≡◌, IfOk};
ghost use Rattle.referees.specs.Questions.{OneQuestion, AsksFirst, AsksLesser};
ghost use Rattle.referees.specs.PlainStock.{FallsByOne, plain_stock};

use crate::operand::Operand;
use crate::referee::{Referee, Stocked, out_of_stock};
use crate::sums::Sums;
use crate::verdict::{GroupVerdict, PairVerdict};
use elements::entry::Entry;
use elements::limits::saturated;
use elements::ordered::Ordered;
use faults::fault::RunFault;
use std::marker::Model;

/// A referee that counts its stock down.
#[derive(Drop)]
pub struct Plain {
    stock: u64,
}

/// A contract sees its number.
impl Model for Plain {
    ghost use Rattle.std.specs.Prelude.{ℕ};

    ghost Value = { ℕ };

    ghost view = { λ referee. referee.stock };
}

impl Plain {
    pub fn new(stock: u64) -> Plain
        ensures { result ≡ stock }
    {
        Plain { stock }
    }

    /// Takes one question from the stock.
    fn spend(&mut self) -> Result<(), RunFault>
        ensures { OneQuestion plain_stock self.old self.new tt result }
    {
        self.stock = self.stock.checked_sub(1).ok_or_else(out_of_stock)?;
        Ok(())
    }
}

impl Stocked for Plain {
    ghost stock = { plain_stock };

    fn left(&self) -> u32 {
        saturated(self.stock)
    }
}

impl<T: Ordered> Referee<T> for Plain {
    ghost spends = { FallsByOne };

    // Two questions, with answers of two types. Rattle cannot yet give them their trait's clauses, which name the order of `T`.
    fn first(&mut self, a: Operand<T>, b: Operand<T>) -> Result<PairVerdict, RunFault>
        ensures answers { AsksFirst T.Ordered.before plain_stock self.old self.new a b result }
        ensures spends { IfOk result (λ answer. FallsByOne self.old self.new) }
    {
        self.spend()?;
        Ok(PairVerdict::on(a.entry(), b.entry()))
    }

    fn lesser(&mut self, a: Operand<T>, b: Operand<T>) -> Result<Entry<T>, RunFault>
        ensures answers { AsksLesser T.Ordered.before plain_stock self.old self.new a b result }
        ensures spends { IfOk result (λ answer. FallsByOne self.old self.new) }
    {
        self.spend()?;
        Ok(a.entry().lesser(b.entry()))
    }

    fn weigh(&mut self, sums: Sums) -> Result<GroupVerdict, RunFault> {
        self.spend()?;
        Ok(GroupVerdict::on(sums))
    }
}
