ghost use Rattle.std.specs.Prelude.{◌≡◌, IfOk};
ghost use Rattle.elements.specs.Entries.{entry_before};
ghost use Rattle.referees.specs.Questions.{AsksFirst, AsksLesser};
ghost use Rattle.referees.specs.Operands.{entry_of};
ghost use Rattle.referees.specs.Verdicts.{weight_of_sums};
ghost use Rattle.referees.specs.Strips.{FirstTwo, TakesTwoWords, strip_stock};

use crate::masks::Masks;
use crate::operand::Operand;
use crate::referee::{Referee, Stocked, out_of_stock};
use crate::sums::Sums;
use crate::verdict::{GroupVerdict, PairVerdict};
use elements::entry::Entry;
use elements::limits::saturated;
use elements::ordered::Ordered;
use elements::placed::Placed;
use faults::fault::RunFault;
use std::marker::Model;
use std::mem;

/// A referee that uses up a strip of words, two a question, and splits by them whatever it compares. It has its words to
/// itself while it lives. They are for one strip, once: another would split by them again, and no contract says what they are
/// once the strip is gone.
#[derive(Drop)]
pub struct Strip<'a> {
    words: &'a mut [u64],
}

/// A contract sees the list of its unused words.
impl<'a> Model for Strip<'a> {
    ghost use Rattle.std.specs.Prelude.{List, ℕ};

    ghost Value = { List ℕ };

    ghost view = { λ strip. strip.words.now };
}

impl<'a> Strip<'a> {
    pub fn new(words: &'a mut [u64]) -> Strip<'a>
        ensures { result ≡ words.old }
    {
        Strip { words }
    }
}

// Not a method: a slice pattern gets no generated proof where the slice is a field of a struct with a model.
/// Takes the first two of the unused words, and leaves the rest.
fn take_two(unused: &mut &mut [u64]) -> Result<Masks, RunFault>
    ensures { FirstTwo unused.old.now unused.new.now result }
{
    match mem::take(unused) {
        [first, second, rest @ ..] => {
            *unused = rest;
            Ok(Masks::new(*first, *second))
        }
        too_few => {
            *unused = too_few;
            Err(out_of_stock())
        }
    }
}

/// Whether A's entry is before B's: elements by their places, split by the words and reconstructed, and marks as marks. The
/// element that goes with a mark is split and reconstructed too, so that a mark takes the same work.
fn before_by_words<T: Placed>(a: Operand<T>, b: Operand<T>, words: Masks) -> bool
    ensures { result ≡ entry_before T.Ordered.before (entry_of a) (entry_of b) }
{
    let (x, y) = words
        .split(a.element.place_number(), b.element.place_number())
        .reconstruct();
    let a = Operand {
        kind: a.kind,
        element: x,
    };
    let b = Operand {
        kind: b.kind,
        element: y,
    };
    a.entry().is_before(b.entry())
}

/// The verdict on a group's sums, split by the words and reconstructed.
fn weight_by_words(sums: Sums, words: Masks) -> GroupVerdict
    ensures { result ≡ weight_of_sums sums }
{
    let (below, above) = words
        .split(sums.below as u64, sums.above as u64)
        .reconstruct();
    GroupVerdict::on(Sums {
        below: below as u32,
        above: above as u32,
        ..sums
    })
}

impl<'a> Stocked for Strip<'a> {
    ghost stock = { strip_stock };

    fn left(&self) -> u32 {
        saturated(self.words.len() as u64 / 2)
    }
}

impl<'a, T: Placed> Referee<T> for Strip<'a> {
    ghost spends = { TakesTwoWords };

    // Two questions, with answers of two types. Rattle cannot yet give them their trait's clauses, which name the order of `T`.
    fn first(&mut self, a: Operand<T>, b: Operand<T>) -> Result<PairVerdict, RunFault>
        ensures answers { AsksFirst T.Ordered.before strip_stock self.old self.new a b result }
        ensures spends { IfOk result (λ answer. TakesTwoWords self.old self.new) }
    {
        let before = before_by_words(a, b, take_two(&mut self.words)?);
        Ok(PairVerdict::from(before))
    }

    fn lesser(&mut self, a: Operand<T>, b: Operand<T>) -> Result<Entry<T>, RunFault>
        ensures answers { AsksLesser T.Ordered.before strip_stock self.old self.new a b result }
        ensures spends { IfOk result (λ answer. TakesTwoWords self.old self.new) }
    {
        let before = before_by_words(a, b, take_two(&mut self.words)?);
        let lesser = if before { a } else { b };
        Ok(lesser.entry())
    }

    fn weigh(&mut self, sums: Sums) -> Result<GroupVerdict, RunFault> {
        Ok(weight_by_words(sums, take_two(&mut self.words)?))
    }
}
