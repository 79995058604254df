ghost use Rattle.group.specs.GroupLaws.{WeighingFindsRank, RangeIsNeverEmpty, TestIsFiveRules, ExplainedIfPossible, FiveRulesDecide, HonestIsPossible, EveryFinishedIsSearch};

use elements::placed::Placed;

/// What holds of the weighing of lists at the targets of a range, for every placed type: what its clauses say is proved,
/// and the call itself does nothing.
pub fn weighings_find_ranks<T: Placed>()
    ensures finds { WeighingFindsRank T.Ordered.before T.Placed.place }
    ensures never_empty { RangeIsNeverEmpty }
{}

/// The same of counts, whoever reports them: which can be true, what decides it, and what a finished exchange comes to.
pub fn counts_have_lists<T: Placed>()
    ensures test { TestIsFiveRules }
    ensures explained { ExplainedIfPossible T.Placed.place T.Placed.LOWEST T.Placed.HIGHEST }
    ensures five_rules { FiveRulesDecide T.Placed.place T.Placed.LOWEST T.Placed.HIGHEST }
    ensures honest { HonestIsPossible T.Placed.place }
    ensures finished { EveryFinishedIsSearch T.Ordered.before T.Placed.place T.Placed.LOWEST T.Placed.HIGHEST }
{}
