//! Laws of steps, walks and runs.
#![tactic(auto, using(crate::proofs::TheLaws::walks))]

ghost use Rattle.pac_board_model.specs.Laws.{StepsAreTimely, RunsEnd, RunsAreJoined, WalksEnd};
ghost use Rattle.pac_board_model.specs.Laws.{WalksJoin, WalksGoOn, WalksAreTimed, RunsGoByFrames};
ghost use Rattle.pac_board_model.specs.MemoryLaws.{MemoryDecides};
ghost use Rattle.pac_board_model.specs.PictureLaws.{PictureIsForgotten};

/// A step that goes on takes 4 to 23 T-states.
pub fn steps_are_timely<Board>()
    ensures { StepsAreTimely Board }
{}

/// A run of as many steps as its frames can have has ended, and where it has ended it has one state.
pub fn runs_end<Board>()
    ensures { RunsEnd Board }
{}

/// The outputs of a run up to a step are a prefix of those up to a later one.
pub fn runs_are_joined<Board>()
    ensures { RunsAreJoined Board }
{}

/// A walk to a limit ends there.
pub fn walks_end<Board>()
    ensures { WalksEnd Board }
{}

/// A walk to a limit and on to a later one is the walk to the later one.
pub fn walks_join<Board>()
    ensures { WalksJoin Board }
{}

/// A walk that is taken up again goes on as it would have.
pub fn walks_go_on<Board>()
    ensures { WalksGoOn Board }
{}

/// A walk has a sample for each 32 T-states and a picture for each 50,688, and its last step begins before its limit.
pub fn walks_are_timed<Board>()
    ensures { WalksAreTimed Board }
{}

/// A run is its frames, one played after another.
pub fn runs_go_by_frames<Board>()
    ensures { RunsGoByFrames Board }
{}

/// Memory alone decides what a board does: registers, RAM, time, steps and stop are those of a board without voices and without a
/// picture, and boards whose memories begin alike have one history. So samples and lines may be made later, from the history.
pub fn memory_decides()
    ensures { MemoryDecides }
{}

/// Once 264 lines of the scan have ended, a board is what it would be with any other picture at first: all of it was composed anew.
pub fn picture_is_forgotten()
    ensures { PictureIsForgotten }
{}
