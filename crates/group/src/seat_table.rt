ghost use Rattle.std.specs.Prelude.{◌≡◌, ◌≤◌, ◌+◌, ℕ, List, length, ◌*◌, replicate, take};
ghost use Rattle.elements.specs.Limits.{longest_list};
ghost use Rattle.std.specs.Borrow.{sem};
ghost use Rattle.group.specs.Halves.{half, LendsHalf, seat_at, LendsSeat};
ghost use Rattle.group.specs.SeatStates.{AreAfter};
ghost use Rattle.group.specs.SeatTotals.{totals_of};
ghost use Rattle.group.specs.declared.seat_state.SeatState.{SeatState};
ghost use Rattle.std.proofs.Common.{rules, sym, ◌∙◌, arith};
ghost use Rattle.group.specs.SeatTables.{one_seat, in_turns, table_seats};
ghost use Rattle.group.specs.WeaveLength.{length-weave};

use crate::seat_state::SeatState;
use crate::totals::Totals;
use referees::verdict::GroupVerdict;

/// The seats of even numbers and those of odd ones.
#[derive(Clone, Copy, PartialEq, Eq)]
pub(crate) struct Both<R> {
    pub even: R,
    pub odd: R,
}

impl<R> Both<R> {
    /// The half that a number's last bit picks, to be changed in place.
    fn half_mut(&mut self, i: u32) -> &mut R
        ensures* lends { sem 𝓛 (LendsHalf R.row self.entry i result) }
        ensures value { result.now ≡ half self.old i }
    {
        if i % 2 == 0 {
            &mut self.even
        } else {
            &mut self.odd
        }
    }
}

/// Sixteen seats, as nested pairs.
pub(crate) type SeatTable = Both<Both<Both<Both<SeatState>>>>;

/// The states of some seats, as many in every value of the type, numbered from 0 on.
pub(crate) trait SeatStates {
    /// The states as one list, by their numbers.
    ghost seats: { Self → List SeatState };

    /// How many there are.
    ghost COUNT: { ℕ };

    /// Advances the first states, as many as `count` says, by a verdict. The others stay.
    fn advance(&mut self, count: u32, verdict: GroupVerdict)
        ensures { AreAfter verdict count (seats self.old) (seats self.new) };

    /// What the first states, as many as `count` says, add up to. The others are not looked at.
    fn totals(&self, count: u32) -> Totals
        requires { count ≤ 16 }
        ensures exact { result ≡ totals_of (take count (seats self.now)) }
        ensures few { result.given ≤ count }
        ensures small { result.below + result.above ≤ longest_list * count };

    ghost counted: { (table : Self) → length (seats table) ≡ COUNT };
}

/// A state is one, of number 0.
impl SeatStates for SeatState {
    ghost seats = { one_seat };

    ghost COUNT = { 1 };

    ghost counted = { Prim.search rules };

    #[tactic(auto, using(crate::proofs::After::one_after))]
    fn advance(&mut self, count: u32, verdict: GroupVerdict) {
        if count > 0 {
            self.learn(verdict);
        }
    }

    fn totals(&self, count: u32) -> Totals {
        match self.given {
            Some(counts) if count > 0 => Totals {
                given: 1,
                below: counts.below,
                above: counts.above,
            },
            _ => Totals::none(),
        }
    }
}

/// Both parts together are twice as many.
impl<R: SeatStates> SeatStates for Both<R> {
    ghost seats = { in_turns R.SeatStates.seats };

    ghost COUNT = { 2 * R.SeatStates.COUNT };

    ghost counted = { λ both.
        let seats = R.SeatStates.seats in
        let counted = R.SeatStates.counted in
        omega (arith, length-weave (seats both.even) (seats both.odd) (counted both.even ∙ sym (counted both.odd)), counted both.even) };

    #[tactic(auto, using(crate::proofs::After::after_in_turns))]
    fn advance(&mut self, count: u32, verdict: GroupVerdict) {
        if count > 0 {
            self.even.advance(count - count / 2, verdict);
            self.odd.advance(count / 2, verdict);
        }
    }

    #[tactic(auto, using(crate::proofs::TableTotals::totals_in_turns))]
    fn totals(&self, count: u32) -> Totals {
        if count == 0 {
            return Totals::none();
        }
        self.even
            .totals(count - count / 2)
            .with(self.odd.totals(count / 2))
    }
}

/// Two parts that are alike.
fn twice<R: Copy>(part: R) -> Both<R>
    ensures { result ≡ record { even = part; odd = part } }
{
    Both {
        even: part,
        odd: part,
    }
}

/// One state as often as a table has seats.
#[tactic(auto, unfolding(crate::specs::SeatTables::table_seats))]
pub(crate) fn table_of(seat: SeatState) -> SeatTable
    ensures { table_seats result ≡ replicate 16 seat }
{
    twice(twice(twice(twice(seat))))
}

/// The state of a table that a number's last four bits pick, to be changed in place.
#[tactic(auto, unfolding(crate::specs::Halves::seat_at, crate::specs::Halves::with_seat_at))]
pub(crate) fn table_seat(table: &mut SeatTable, i: u32) -> &mut SeatState
    ensures* lends { sem 𝓛 (LendsSeat table.entry i result) }
    ensures value { result.now ≡ seat_at table.old i }
{
    table
        .half_mut(i)
        .half_mut(i / 2)
        .half_mut(i / 4)
        .half_mut(i / 8)
}

/// Advances the first states of a table by a verdict.
#[tactic(auto, unfolding(crate::specs::SeatTables::table_seats))]
pub(crate) fn table_advance(table: &mut SeatTable, count: u32, verdict: GroupVerdict)
    ensures { AreAfter verdict count (table_seats table.old) (table_seats table.new) }
{
    table.advance(count, verdict);
}

/// What the first states of a table add up to.
#[tactic(auto, unfolding(crate::specs::SeatTables::table_seats))]
pub(crate) fn table_totals(table: &SeatTable, count: u32) -> Totals
    requires { count ≤ 16 }
    ensures { result ≡ totals_of (take count (table_seats table.now)) }
{
    table.totals(count)
}
