//! Laws of the board's definitions.

mod history;
mod outputs;
mod resumed;
mod walks;

pub use history::{hosts_agree, runs_agree, steps_agree, view_answers, view_tells};
pub use outputs::{
    frames_have_their_samples, hosts_are_line_exact, lines_have_no_other_moments,
    lines_have_their_moments, outputs_are_of_the_history, outputs_are_timed,
    pictures_are_line_exact,
};
pub use resumed::{
    plays_join, resumed_outputs_are_of_the_history, resumed_runs_agree, resumed_runs_are_timed,
    resumed_runs_end, resumed_runs_have_their_frames, runs_are_continued, runs_begin,
    stopped_runs_stay,
};
pub use walks::{
    memory_decides, picture_is_forgotten, runs_are_joined, runs_end, runs_go_by_frames,
    steps_are_timely, walks_are_timed, walks_end, walks_go_on, walks_join,
};
