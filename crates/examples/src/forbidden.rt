ghost use Rattle.examples.specs.ForbiddenPairTraces.{PairLawForbids};
ghost use Rattle.examples.specs.ForbiddenGroupTraces.{GroupLawForbids};

/// What the law of a pair's histories forbids: what the clause says is proved, and the call itself does nothing.
#[tactic(auto, using(crate::proofs::PairTraces::pair_law_forbids))]
pub fn pair_law_forbids()
    ensures { PairLawForbids }
{}

/// The same of a group's.
#[tactic(auto, using(crate::proofs::GroupTraces::group_law_forbids))]
pub fn group_law_forbids()
    ensures { GroupLawForbids }
{}
