ghost use Rattle.seats.specs.ListRefusals.{IsGroupRefusal, IsOutside};
ghost use Rattle.seats.specs.SeatReports.{GroupReport, counts_at};
ghost use Rattle.std.specs.Prelude.{◌≡◌, ◌≤◌, ◌↔◌, length, map, IsTrue};
ghost use Rattle.elements.specs.Limits.{longest_list};
ghost use Rattle.elements.specs.Orders.{NeverFalls};
ghost use Rattle.group.specs.GroupCalls.{progress_of_run, limits_of, range_of};
ghost use Rattle.group.specs.SeatCounts.{below, above, Within};

use crate::list::list_refusal;
use elements::placed::Placed;
use faults::fault::SeatFault;
use faults::refusal::Refusal;
use faults::seat::Seat;
use group::counts::Counts;
use group::range::Range;
use group::run::Run;
use runs::stage::Comparing;

/// Why a seat of a group cannot report of a list, if it cannot.
fn refusal<T: Placed>(list: &[T], limits: Range) -> Option<Refusal>
    ensures { IsGroupRefusal T.Ordered.before T.Placed.place limits.from limits.to list.now result }
{
    if let Some(refusal) = list_refusal(list) {
        return Some(refusal);
    }
    let number = first_outside(list, limits)?;
    Some(Refusal::OutsideRange(number as u64))
}

/// The honest report of a seat's list at the target that a run asks for: how many places are below it, and how many above.
pub fn report_of_group<T: Placed>(
    list: &[T],
    run: &Run<T, Comparing>,
    number: u32,
) -> Result<Counts, SeatFault>
    ensures { GroupReport T.Ordered.before T.Placed.place (limits_of (progress_of_run run.now)) (range_of (progress_of_run run.now)) number list.now result }
{
    match refusal(list, run.limits()) {
        Some(refusal) => Err(SeatFault::Own(refusal, Some(Seat::Numbered(number)))),
        None => Ok(counts_at(list, run.range())),
    }
}

/// Whether a place is in a range.
fn is_inside(place: u64, range: Range) -> bool
    ensures { IsTrue result ↔ ((range.from ≤ place) × (place ≤ range.to)) }
{
    range.from <= place && place <= range.to
}

/// Whether every place of a list in order is in a range, as it is if the first and the last are.
fn is_within<T: Placed>(list: &[T], range: Range) -> bool
    requires { NeverFalls T.Ordered.before list.now }
    ensures { IsTrue result ↔ Within T.Placed.place range.from range.to list.now }
{
    if list.is_empty() {
        return true;
    }
    let first = list[0].place_number();
    let last = list[list.len() - 1].place_number();
    is_inside(first, range) && is_inside(last, range)
}

/// The number, counted from 1, of the first element of a list in order whose place is not in a range, if there is one.
/// The list is gone through only where there is.
fn first_outside<T: Placed>(list: &[T], range: Range) -> Option<usize>
    requires { NeverFalls T.Ordered.before list.now }
    ensures { IsOutside T.Placed.place range.from range.to list.now result }
{
    if is_within(list, range) {
        return None;
    }
    for i in 0..list.len() {
        if !is_inside(list[i].place_number(), range) {
            return Some(i + 1);
        }
    }
    None
}

/// How many places of a list in order are below a number.
fn count_below<T: Placed>(list: &[T], m: u64) -> usize
    requires { NeverFalls T.Ordered.before list.now }
    ensures count { result ≡ below m (map T.Placed.place list.now) }
    ensures few { result ≤ length list.now }
{
    list.partition_point(|x| x.place_number() < m)
}

/// How many places of a list in order are above a number.
fn count_above<T: Placed>(list: &[T], m: u64) -> usize
    requires { NeverFalls T.Ordered.before list.now }
    ensures count { result ≡ above m (map T.Placed.place list.now) }
    ensures few { result ≤ length list.now }
{
    list.len() - list.partition_point(|x| x.place_number() <= m)
}

/// How many places of a list in order are below the target of a range, and how many above.
fn counts_at<T: Placed>(list: &[T], range: Range) -> Counts
    requires in_order { NeverFalls T.Ordered.before list.now }
    requires short { length list.now ≤ longest_list }
    ensures { result ≡ counts_at T.Placed.place range list.now }
{
    let target = range.target();
    let below = count_below(list, target);
    let above = count_above(list, target);
    Counts {
        below: below as u32,
        above: above as u32,
    }
}
