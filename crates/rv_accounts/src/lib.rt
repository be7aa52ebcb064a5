//! What was seen of a turn's history accounts for an actor's ends. Laws, each on a function that does nothing.
#![tactic(auto)]

ghost use Rattle.rv_accounts.specs.Explained.{ExplainedStays, NothingToExplain, OthersExplainNothing};
ghost use Rattle.rv_accounts.specs.Followed.{FollowedStays};
ghost use Rattle.rv_accounts.specs.Given.{CallsGiveScalars, FiresGiveScalars, HandedCallsGiveScalars, ResumesGiveScalars};
ghost use Rattle.rv_accounts.specs.Seen.{AsksGrow, AsksStay};

/// An event more in a history is an ask more, where it is the actor's.
pub fn asks_grow()
    ensures { AsksGrow }
{}

/// What others add is none, nor are settles.
pub fn asks_stay()
    ensures { AsksStay }
{}

/// An actor that did nothing has nothing to explain.
pub fn nothing_to_explain()
    ensures { NothingToExplain }
{}

/// What is explained in what was seen is explained in all that is seen later, if the ends between are.
pub fn explained_stays()
    ensures { ExplainedStays }
{}

/// So it is whatever others add.
pub fn others_explain_nothing()
    ensures { OthersExplainNothing }
{}

/// And a task's text that is followed in what was seen stays so, whatever others add.
pub fn followed_stays()
    ensures { FollowedStays }
{}

/// What a start gives is what its object has in the history, also when a caller that waited wakes: so the components that an
/// end is explained on are the history's own. To a caller that waited in a queue they are those of its call's object, and what
/// the end that handed this over left, or what the object had where it was settled.
pub fn starts_give_the_scalars()
    ensures calls { CallsGiveScalars }
    ensures fires { FiresGiveScalars }
    ensures resumes { ResumesGiveScalars }
    ensures handed { HandedCallsGiveScalars }
{}
