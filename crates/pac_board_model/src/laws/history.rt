//! Laws of what a history and its view tell.
#![tactic(auto, using(crate::proofs::TheLaws::history))]

ghost use Rattle.pac_board_model.specs.Laws.{ViewAnswers, ViewTells, StepsAgree, HostsAgree};
ghost use Rattle.pac_board_model.specs.Laws.{RunsAgree};

/// The view that a history leaves answers each read as the history does.
pub fn view_answers()
    ensures { ViewAnswers }
{}

/// The view that a history leaves tells RAM, registers, inputs, latch, request, watchdog, voices and picture as the history does.
pub fn view_tells()
    ensures { ViewTells }
{}

/// A step of the source's items over the history is the step of the bytes of the ROM over the view.
pub fn steps_agree()
    ensures { StepsAgree }
{}

/// Whatever a host does to the history, it does to the view.
pub fn hosts_agree()
    ensures { HostsAgree }
{}

/// Running the source's items over the history is running the bytes of the ROM over the view.
pub fn runs_agree()
    ensures { RunsAgree }
{}
