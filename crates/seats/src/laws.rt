ghost use Rattle.seats.specs.PairSeatHonesty.{PairSeatsAreHonest};
ghost use Rattle.seats.specs.GroupSeatHonesty.{GroupSeatsAreHonest};

use elements::ordered::Ordered;
use elements::placed::Placed;

/// In every history of an opened run of a pair a seat's call answers the honest report of the list that it is lent, and a seat
/// that reports so of one list of the declared length is never refused in its turn. The call itself does nothing.
pub fn pair_seats_are_honest<T: Ordered>()
    ensures { PairSeatsAreHonest T.Ordered.before T.Ordered.sample }
{}

/// The same in a group.
pub fn group_seats_are_honest<T: Placed>()
    ensures { GroupSeatsAreHonest T.Ordered.before T.Ordered.sample T.Placed.place T.Placed.LOWEST T.Placed.HIGHEST }
{}
