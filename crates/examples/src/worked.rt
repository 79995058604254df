ghost use Rattle.examples.specs.WorkedDefinitions.{Layouts, Kinds, Places, Ranks, Percentiles, Lines};
ghost use Rattle.examples.specs.WorkedReferees.{SplitNumbers, Marks, Payers, Plays, Questions, Stocks, Verdicts};
ghost use Rattle.examples.specs.WorkedPairs.{Bisections, Bounding, PairExchanges, Rebuilt, Rows, Tests, WithoutBelows};
ghost use Rattle.examples.specs.WorkedGroups.{Countings, GroupExchanges, GroupSearches, Tables, Rules, Targets};
ghost use Rattle.examples.specs.Cases.{CallsLeadThere, EveryCaseHolds};

/// The definitions that contracts cite give what a reader works out by hand; the call itself does nothing.
pub fn definitions_work()
    ensures layouts { Layouts }
    ensures kinds { Kinds }
    ensures places { Places }
    ensures ranks { Ranks }
    ensures percentiles { Percentiles }
    ensures lines { Lines }
{}

/// The same of the definitions of referees.
pub fn referees_work()
    ensures verdicts { Verdicts }
    ensures marks { Marks }
    ensures questions { Questions }
    ensures payers { Payers }
    ensures shares { SplitNumbers }
    ensures stocks { Stocks }
    ensures plays { Plays }
{}

/// The same of the definitions of a pair's exchange.
pub fn pair_works()
    ensures rows { Rows }
    ensures bisections { Bisections }
    ensures without_belows { WithoutBelows }
    ensures rebuilt { Rebuilt }
    ensures tests { Tests }
    ensures bounding { Bounding }
    ensures exchanges { PairExchanges }
{}

/// The same of the definitions of a group's exchange.
pub fn group_works()
    ensures targets { Targets }
    ensures countings { Countings }
    ensures searches { GroupSearches }
    ensures rules { Rules }
    ensures exchanges { GroupExchanges }
    ensures tables { Tables }
{}

/// The table of worked cases, tried by one computation.
pub fn every_case_holds()
    ensures table { EveryCaseHolds }
    ensures runs { CallsLeadThere }
{}
