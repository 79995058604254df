ghost use Rattle.std.specs.Prelude.{◌/◌, ◌≡◌, min, ◌+◌};
ghost use Rattle.referees.specs.Quotas.{quota_stock};
ghost use Rattle.referees.specs.PlainStock.{plain_stock};
ghost use Rattle.referees.specs.Plays.{PlayedFrom};
ghost use Rattle.referees.specs.Piles.{pile_stock};

use crate::plain::Plain;
use crate::play::{Line, Tally, play};
use crate::quota::Quota;
use crate::referee::Referee;
use crate::spare::Spare;
use crate::strip::Strip;
use elements::ordered::Ordered;
use elements::placed::Placed;

/// The numbers of a pile: the quota over the whole, the quota over the plain referee, and that referee's stock.
#[derive(Clone, Copy)]
pub struct PileNumbers {
    pub whole: u64,
    pub part: u64,
    pub plain: u64,
}

/// A quota over a plain referee.
fn part_of(numbers: PileNumbers) -> Quota<Plain>
    ensures { quota_stock plain_stock result ≡ min numbers.part numbers.plain }
{
    Quota::new(numbers.part, Plain::new(numbers.plain))
}

/// Plays lines against a quota over a spare.
fn play_on_spare<T: Ordered, R: Referee<T> + Drop, S: Referee<T> + Drop>(
    whole: u64,
    main: R,
    spare: S,
    lines: &mut [Line<T>],
) -> Tally
    ensures { PlayedFrom T.Ordered.before (min whole (R.Stocked.stock main + S.Stocked.stock spare)) lines.old lines.new result }
{
    play(&mut Quota::new(whole, Spare::new(main, spare)), lines)
}

/// Plays lines against a quota over a spare, whose first is a quota over a plain referee and whose second is a strip. The strip
/// is gone after the call, as all of the pile is.
pub fn play_on_pile<T: Placed>(numbers: PileNumbers, strip: Strip, lines: &mut [Line<T>]) -> Tally
    ensures { PlayedFrom T.Ordered.before (pile_stock numbers strip.entry) lines.old lines.new result }
{
    play_on_spare(numbers.whole, part_of(numbers), strip, lines)
}

/// Plays lines against a quota over a spare, whose first is a strip and whose second is lent: a quota over a plain
/// referee.
#[tactic(auto, using(crate::proofs::Tallies::in_either_order))]
pub fn play_on_loan<T: Placed>(numbers: PileNumbers, strip: Strip, lines: &mut [Line<T>]) -> Tally
    ensures { PlayedFrom T.Ordered.before (pile_stock numbers strip.entry) lines.old lines.new result }
{
    let mut lent = part_of(numbers);
    play_on_spare(numbers.whole, strip, &mut lent, lines)
}
