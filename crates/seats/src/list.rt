ghost use Rattle.std.specs.Prelude.{◌≡◌};
ghost use Rattle.seats.specs.ListRefusals.{too_long, IsListRefusal};

use elements::limits::most_elements;
use elements::list::first_fall;
use elements::ordered::Ordered;
use faults::refusal::Refusal;

/// Whether a list is too long.
fn is_too_long<T>(list: &[T]) -> bool
    ensures { result ≡ too_long list.now }
{
    list.len() > most_elements()
}

/// Why a seat cannot report of a list, in either protocol, if it cannot.
pub(crate) fn list_refusal<T: Ordered>(list: &[T]) -> Option<Refusal>
    ensures { IsListRefusal T.Ordered.before list.now result }
{
    if let Some(number) = first_fall(list) {
        return Some(Refusal::OutOfOrder(number as u64));
    }
    if is_too_long(list) {
        return Some(Refusal::ListTooLong);
    }
    None
}
