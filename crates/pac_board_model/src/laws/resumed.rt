//! Laws of plays that are taken up at any moment.
#![tactic(auto, using(crate::proofs::TheLaws::resumed))]

ghost use Rattle.pac_board_model.specs.Resumed.{RunsBegin, ResumedRunsEnd, RunsAreContinued};
ghost use Rattle.pac_board_model.specs.Resumed.{PlaysJoin, StoppedRunsStay};
ghost use Rattle.pac_board_model.specs.Resumed.{ResumedRunsAgree, ResumedOutputsAreOfTheHistory};
ghost use Rattle.pac_board_model.specs.Resumed.{ResumedRunsAreTimed};
ghost use Rattle.pac_board_model.specs.Resumed.{ResumedRunsHaveTheirFrames};

/// A run from power-on is that of its play taken up then.
pub fn runs_begin<Board>()
    ensures { RunsBegin Board }
{}

/// A run from any moment on ends, and where it has ended it has one state.
pub fn resumed_runs_end<Board>()
    ensures { ResumedRunsEnd Board }
{}

/// A run that is cut in two is the run at once, where the inputs held last alone are kept.
pub fn runs_are_continued<Board>()
    ensures { RunsAreContinued Board }
{}

/// A board's run that is cut in two is the run at once.
pub fn plays_join()
    ensures { PlaysJoin }
{}

/// A run that met a stop stays there, whatever is played after it.
pub fn stopped_runs_stay<Board>()
    ensures { StoppedRunsStay Board }
{}

/// From any view of a board on, running the source's items over the history is running the bytes of the ROM over the view.
pub fn resumed_runs_agree()
    ensures { ResumedRunsAgree }
{}

/// The outputs of a run from any moment on are those of its history.
pub fn resumed_outputs_are_of_the_history()
    ensures { ResumedOutputsAreOfTheHistory }
{}

/// A run from any moment on has a sample for each 32 T-states and one picture a frame.
pub fn resumed_runs_are_timed<Board>()
    ensures { ResumedRunsAreTimed Board }
{}

/// A run that met no stop has the pictures of its frames, and 1,584 samples for each.
pub fn resumed_runs_have_their_frames<Board>()
    ensures { ResumedRunsHaveTheirFrames Board }
{}
