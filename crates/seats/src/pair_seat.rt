ghost use Rattle.std.specs.Prelude.{◌≡◌, ◌≤◌, length};
ghost use Rattle.elements.specs.Limits.{longest_list};
ghost use Rattle.pair.specs.PairCalls.{progress_of_run};
ghost use Rattle.seats.specs.SeatReports.{row_entry, PairReport};

use crate::list::list_refusal;
use elements::entry::Entry;
use elements::ordered::Ordered;
use faults::fault::SeatFault;
use pair::run::Run;
use pair::side::Side;
use pair::window::Window;
use referees::operand::EntryKind;
use runs::stage::Stage;

/// The entry at the place that a window asks a side for, in the row of a list.
fn row_entry<T: Ordered>(list: &[T], window: Window, side: Side) -> Entry<T>
    requires { length list.now ≤ longest_list }
    ensures { result ≡ row_entry side window list.now }
{
    let place = window.place_asked(side);
    match window.kind_at(side, list.len() as u32, place) {
        EntryKind::Below => Entry::Below,
        EntryKind::Element => Entry::Element(list[(place - window.belows(side) - 1) as usize]),
        EntryKind::Above => Entry::Above,
    }
}

/// The honest report of a side's list at the place that a run asks it for: its row's entry there.
pub fn report_of_pair<T: Ordered, S: Stage>(
    list: &[T],
    run: &Run<T, S>,
    side: Side,
) -> Result<Entry<T>, SeatFault>
    ensures { PairReport T.Ordered.before side (progress_of_run run.now).window list.now result }
{
    match list_refusal(list) {
        Some(refusal) => Err(SeatFault::Own(refusal, Some(side.into()))),
        None => Ok(row_entry(list, run.window(), side)),
    }
}
