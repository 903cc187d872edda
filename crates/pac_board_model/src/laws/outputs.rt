//! Laws of what a run gives out: samples, pictures and their lines.
#![tactic(auto, using(crate::proofs::TheLaws::outputs))]

ghost use Rattle.pac_board_model.specs.Laws.{OutputsAreOfTheHistory, OutputsAreTimed};
ghost use Rattle.pac_board_model.specs.Laws.{FramesHaveTheirSamples, LinesHaveTheirMoments};
ghost use Rattle.pac_board_model.specs.Laws.{LinesHaveNoOtherMoments, HostsAreLineExact};
ghost use Rattle.pac_board_model.specs.Laws.{PicturesAreLineExact};

/// The outputs of a run are those of its history.
pub fn outputs_are_of_the_history()
    ensures { OutputsAreOfTheHistory }
{}

/// A run has a sample for each 32 T-states and one picture a frame.
pub fn outputs_are_timed()
    ensures { OutputsAreTimed }
{}

/// When a frame's blank comes, 1,584 samples have come for each frame so far.
pub fn frames_have_their_samples()
    ensures { FramesHaveTheirSamples }
{}

/// A line of the picture is composed as its line of the scan ends.
pub fn lines_have_their_moments<Board>()
    ensures { LinesHaveTheirMoments Board }
{}

/// No line of the picture is composed but as its line of the scan ends.
pub fn lines_have_no_other_moments<Board>()
    ensures { LinesHaveNoOtherMoments Board }
{}

/// Whatever a host does, each line of a frame's picture is that of the entries before its own moment, and lines are composed at no
/// other moments.
pub fn hosts_are_line_exact()
    ensures { HostsAreLineExact }
{}

/// Each line of a frame's picture is that of the entries before its own moment.
pub fn pictures_are_line_exact()
    ensures { PicturesAreLineExact }
{}
