ghost use Rattle.pair.specs.PairLaws.{BisectionFindsRank, VerdictsAreLogOfRank, SeatsRebuild, ExplainedIfConsistent, NearestPlacesDecide, HonestIsAccepted, BoundsDecide, EveryFinishedIsBisection};
ghost use Rattle.pair.specs.WindowLaws.{WindowsFollowVerdicts};

use elements::ordered::Ordered;

/// What holds of a bisection over the rows of two lists, in every ordered type: what its clauses say is proved, and the
/// call itself does nothing.
pub fn bisections_find_ranks<T: Ordered>()
    ensures finds { BisectionFindsRank T.Ordered.before }
    ensures verdicts { VerdictsAreLogOfRank T.Ordered.before }
    ensures rebuilt { SeatsRebuild T.Ordered.before }
{}

/// The same of reports, whoever gives them: which can be true, what decides it, and what a finished exchange comes to.
pub fn reports_have_lists<T: Ordered>()
    ensures explained { ExplainedIfConsistent T.Ordered.before }
    ensures nearest { NearestPlacesDecide T.Ordered.before }
    ensures honest { HonestIsAccepted T.Ordered.before }
    ensures bounds { BoundsDecide T.Ordered.before }
    ensures finished { EveryFinishedIsBisection T.Ordered.before }
{}

/// Windows that are halved by one verdict after another are those of the bisection: what the clause says is proved, and the
/// call itself does nothing.
pub fn windows_follow_verdicts()
    ensures { WindowsFollowVerdicts }
{}
