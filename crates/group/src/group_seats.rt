ghost use Rattle.std.specs.Prelude.{◌*◌, ◌≤◌};
ghost use Rattle.elements.specs.Limits.{longest_list};

use crate::counts::Counts;
use crate::range::Range;
use crate::seat_state::SeatState;
use crate::seat_table::{SeatTable, table_advance, table_of, table_seat, table_totals};
use crate::totals::Totals;
use faults::refusal::Refusal;
use referees::verdict::GroupVerdict;

/// The seats of a group: how many there are, the table of their states, and the sum of the lengths that they declared. The
/// first states of the table are theirs, and nobody looks at the others.
#[derive(Clone, Copy, PartialEq, Eq)]
pub struct GroupSeats {
    pub(crate) count: u32,
    pub(crate) table: SeatTable,
    pub(crate) total: u32,
    ghost few: { count ≤ 16 },
    ghost small: { total ≤ longest_list * count },
}

impl GroupSeats {
    ghost use Rattle.std.specs.Prelude.{◌<◌, ◌≡◌, map};
    ghost use Rattle.group.specs.SeatCalls.{IsEmpty, IsSeated, Seats, count_of, total_of, seats_of, TakesReport};
    ghost use Rattle.group.specs.SeatValues.{seat_after, gathered};

    /// No seat yet.
    fn empty() -> GroupSeats
        ensures { IsEmpty result }
    {
        // No list is too short to be declared.
        let blank = SeatState::new(0).unwrap();
        GroupSeats {
            count: 0,
            table: table_of(blank),
            total: 0,
        }
    }

    /// Seats one more, which has declared a length, unless that is too long.
    #[tactic(auto, using(crate::proofs::Halves::puts_seat_at, crate::proofs::Seated::seated_more, crate::proofs::TableTotals::length_table))]
    fn add(&mut self, declared: u32) -> Result<(), Refusal>
        requires { count_of self.old < 16 }
        ensures { IsSeated self.old declared self.new result }
    {
        let seat = SeatState::new(declared).ok_or(Refusal::ListTooLong)?;
        *table_seat(&mut self.table, self.count) = seat;
        self.count += 1;
        self.total += declared;
        Ok(())
    }

    /// Seats a group, by the lengths that its seats declare.
    pub(crate) fn new(lengths: &[u32]) -> Result<GroupSeats, Refusal>
        ensures { Seats lengths.now result }
    {
        if lengths.len() < 2 || lengths.len() > 16 {
            return Err(Refusal::SeatsOutOfBounds);
        }
        let mut seats = GroupSeats::empty();
        for declared in lengths {
            seats.add(*declared)?;
        }
        Ok(seats)
    }

    /// Takes what a seat, numbered from 1, reports at the target of a range.
    pub(crate) fn report(
        &mut self,
        range: Range,
        number: u32,
        counts: Counts,
    ) -> Result<(), Refusal>
        ensures { TakesReport range number counts self.old self.new result }
    {
        if number == 0 || number > self.count {
            return Err(Refusal::NotItsTurn);
        }
        table_seat(&mut self.table, number - 1).report(range, counts)
    }

    /// Each seat's state after a verdict.
    #[tactic(auto, using(crate::proofs::After::seated_after))]
    pub(crate) fn advance(&mut self, verdict: GroupVerdict)
        ensures seats { seats_of self.new ≡ map (seat_after verdict) (seats_of self.old) }
        ensures total { total_of self.new ≡ total_of self.old }
    {
        table_advance(&mut self.table, self.count, verdict);
    }

    /// The sum of the lengths that the seats declared.
    pub(crate) fn total(&self) -> u32
        ensures { result ≡ total_of self.now }
    {
        self.total
    }

    /// The sums of what the seats have given in this round, if all have.
    #[tactic(auto, using(crate::proofs::TableSums::gathers_none, crate::proofs::TableSums::gathers_all, crate::proofs::TableTotals::length_table))]
    pub(crate) fn sums(&self) -> Option<Counts>
        ensures { result ≡ gathered (seats_of self.now) }
    {
        let Totals {
            given,
            below,
            above,
        } = table_totals(&self.table, self.count);
        if given < self.count {
            return None;
        }
        Some(Counts { below, above })
    }
}
