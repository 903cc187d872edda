//! Laws of the calls.

ghost use Rattle.pac_board.specs.Laws.{TimeCanBeCut, RefusalsAreTakenUp, StepsAreDoneAgain};
ghost use Rattle.pac_board.specs.Laws.{StepsArePartsOfRuns};
ghost use Rattle.pac_board.specs.Hosts.{CallsAreOfTheHistory, ListsAreCut, RestoresGiveAgain};
ghost use Rattle.pac_board.specs.SinksLaws.{by};

use crate::sink::Sink;

/// Time in pieces is time at once, and the T-states of the pieces add up.
pub fn time_can_be_cut()
    ensures { TimeCanBeCut }
{}

/// After a refusal, calls for no time, however many of them are refused too, leave what a call that isn't refused leaves.
pub fn refusals_are_taken_up<S: Sink>()
    ensures { RefusalsAreTakenUp (by S.took S.refused) }
{}

/// A step that is done again after a board's state was put back gives its outputs again, and what was due then is due again.
pub fn steps_are_done_again()
    ensures { StepsAreDoneAgain }
{}

/// Single steps and offers are parts of a run: from the board that they leave it goes on to the same board with the same outputs.
pub fn steps_are_parts_of_runs<S: Sink>()
    ensures { StepsArePartsOfRuns (by S.took S.refused) }
{}

/// Whatever a host calls, in whichever order, and whatever its sinks refuse: the board stands where its history says, and lines of
/// its picture were composed at their moments and at no others.
pub fn calls_are_of_the_history<S: Sink>()
    ensures { CallsAreOfTheHistory (by S.took S.refused) }
{}

/// Any list of calls can be cut anywhere: one that puts fields or ROMs is one history after another.
pub fn lists_are_cut<S: Sink>()
    ensures { ListsAreCut (by S.took S.refused) }
{}

/// What is given out over calls among which a board goes back: what was due then is given no more, and what the snapshot has due is given
/// again.
pub fn restores_give_again<S: Sink>()
    ensures { RestoresGiveAgain (by S.took S.refused) }
{}
