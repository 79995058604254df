ghost use Rattle.std.specs.Prelude.{ℕ, ◌<◌, List, IsTrue};
ghost use Rattle.elements.specs.Orders.{IsFirstFall, IsReadByIndex, NeverFalls};

use crate::ordered::Ordered;

/// The number, counted from 1, of the first element that is before its predecessor, if there is one.
pub fn first_fall<T: Ordered>(list: &[T]) -> Option<usize>
    ensures { IsFirstFall T.Ordered.before list.now result }
{
    first_fall_by_index(list.len(), |i| list[i])
}

/// Whether no element of a list that is read by index is before its predecessor. Nothing is decided at an element, so that
/// several can be compared at once.
fn never_falls<T: Ordered, F: Fn(usize) -> T>(len: usize, at: &F) -> bool
    requires { (i : ℕ) → i < len → F.pre at.now i }
    ensures { IsTrue result → (xs : List T) → IsReadByIndex (F.post at.now) len xs → NeverFalls T.Ordered.before xs }
{
    let mut in_order = true;
    for i in 1..len {
        in_order &= !at(i).is_before(at(i - 1));
    }
    in_order
}

/// The number, counted from 1, of the first element that is before its predecessor, if there is one, of a list that stands in
/// other memory and is read by index.
#[tactic(auto, using(crate::proofs::FirstFalls::first_here))]
pub fn first_fall_by_index<T: Ordered, F: Fn(usize) -> T>(len: usize, at: F) -> Option<usize>
    requires { (i : ℕ) → i < len → F.pre at i }
    ensures { (xs : List T) → IsReadByIndex (F.post at) len xs → IsFirstFall T.Ordered.before xs result }
{
    if never_falls(len, &at) {
        return None;
    }
    for i in 1..len {
        if at(i).is_before(at(i - 1)) {
            return Some(i + 1);
        }
    }
    None
}
