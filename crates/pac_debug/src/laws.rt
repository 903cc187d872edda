//! Laws of what a session tells, gives and does.

ghost use Rattle.pac_board.specs.SinksLaws.{by};
ghost use Rattle.pac_debug.specs.GoingOn.{LinesGoOn, TextsAreLines};
ghost use Rattle.pac_debug.specs.Laws.{TellsOneThing, AllLinesTell};
ghost use Rattle.pac_debug.specs.StepsMade.{LinesMakeNoMore, SessionsMakeNoMore};

use pac_board::Sink;
use pac_out::Out;

/// Lines, and where a session stands before them, determine what is told and where they leave the session.
#[tactic(auto, using(crate::proofs::Sole::tells_one_thing))]
pub fn one_thing_is_told()
    ensures { TellsOneThing }
{}

/// All lines tell something: each motion comes to rest, and each other command is answered.
#[tactic(auto, using(crate::proofs::Resting::all_lines_tell))]
pub fn something_is_told()
    ensures { AllLinesTell }
{}

/// Lines go on after one that wasn't answered: whatever each asks, and whichever of them the sink or the text refuses.
pub fn lines_go_on<S: Sink, W: Out>()
    ensures { LinesGoOn (by S.took S.refused) W.took W.refused }
{}

/// What a text of lines comes to is what its lines come to, up to the first that isn't answered.
pub fn texts_are_lines<S: Sink, W: Out>()
    ensures { TextsAreLines (by S.took S.refused) W.took W.refused }
{}

/// The board makes the steps of the run, and no more of them once more than the lines ask for that go back.
pub fn lines_make_no_more<S: Sink, W: Out>()
    ensures { LinesMakeNoMore (by S.took S.refused) W.took W.refused }
{}

/// So it is over a whole session, with the way to the run's end.
pub fn sessions_make_no_more<S: Sink, W: Out>()
    ensures { SessionsMakeNoMore (by S.took S.refused) W.took W.refused }
{}
