//! What a run means whose operands, statements and calls wait as frames on a stack of its own. A machine that runs texts on
//! such a stack, in place of the caller's, will be proved against it step by step; nothing runs on it yet. Laws, each on a
//! function that does nothing. What stands in parentheses, as (5.2), is a section of ISO/IEC 8652:2012; (own) marks what is
//! this project's choice.
#![tactic(auto)]

ghost use Rattle.rv_frames.specs.Questions.{PartsAreAssociative, EndsAddNothing};
ghost use Rattle.rv_frames.specs.Begins.{RunsBeginAsTheyAre};
ghost use Rattle.rv_frames.specs.Pushes.{PushesKeepTheMeaning};
ghost use Rattle.rv_frames.specs.Arrivals.{ArrivalsKeepTheMeaning};
ghost use Rattle.rv_frames.specs.AtOnce.{ComesAtOnce};
ghost use Rattle.rv_frames.specs.Asks.{QuestionsKeepTheMeaning};
ghost use Rattle.rv_frames.specs.Rests.{RestsKeepTheMeaning};
ghost use Rattle.rv_frames.specs.Passing.{OthersPass};

/// Of three parts that ask one behind another it is all the same which two are put together first, and a part that only ends
/// adds nothing behind the last.
pub fn questions_are_associative<A, B, C>()
    ensures parts { PartsAreAssociative A B C }
    ensures ends { EndsAddNothing A }
{}

/// On an empty stack a run begins as it is: the body of an operation that has started, a task, and a line that fires ask what they
/// ask without a stack, and come to the same end.
pub fn runs_begin_on_an_empty_stack()
    ensures { RunsBeginAsTheyAre }
{}

/// Where the run turns to a part of an expression, of a statement or of a body, and what waits for that part is pushed, what the
/// run still asks and comes to stays.
pub fn pushes_keep_the_meaning()
    ensures { PushesKeepTheMeaning }
{}

/// Where a value, an end, an answer or what a body comes to is taken by the frame on top, what the run still asks and comes to
/// stays. The frames, and what comes to them, that this law doesn't name are those of the laws below.
pub fn arrivals_keep_the_meaning()
    ensures { ArrivalsKeepTheMeaning }
{}

/// Where the run comes to something at once, as to a null statement, to a call that starts no body or to the body that starts,
/// what it still asks and comes to stays.
pub fn comes_at_once()
    ensures { ComesAtOnce }
{}

/// Where the run asks, and where each answer leads.
pub fn questions_keep_the_meaning()
    ensures { QuestionsKeepTheMeaning }
{}

/// The rest of the frames with what they take: with the laws above, each frame with each thing of the kind that it takes.
pub fn rests_keep_the_meaning()
    ensures { RestsKeepTheMeaning }
{}

/// What a frame doesn't take comes to the frame below, as if it weren't there.
pub fn others_pass()
    ensures { OthersPass }
{}
