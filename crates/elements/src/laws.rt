ghost use Rattle.elements.specs.RankLaws.{PutsInOrder, RankIsByCounting, EveryRankHasElement, RankIsUnique, RankIsIndex, RankInAnyOrderOfLists};
ghost use Rattle.elements.specs.Entries.{entry_before, MarksOutside};
ghost use Rattle.elements.specs.declared.entry.Entry.TheVariants.{Below};

use crate::ordered::Ordered;

/// What holds of ranks in every ordered type: what its clauses say is proved, and the call itself does nothing.
pub fn ranks_agree<T: Ordered>()
    ensures ordering { PutsInOrder T.Ordered.before }
    ensures counting { RankIsByCounting T.Ordered.before }
    ensures exists { EveryRankHasElement T.Ordered.before }
    ensures unique { RankIsUnique T.Ordered.before }
    ensures at_index { RankIsIndex T.Ordered.before }
    ensures any_order { RankInAnyOrderOfLists T.Ordered.before }
{}

/// Below is before every element and every element before above, for every ordered type.
pub fn marks_stand_outside<T: Ordered>()
    ensures { MarksOutside (entry_before T.Ordered.before) }
{}
