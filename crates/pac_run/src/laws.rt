//! Laws of runs: in parts, and under a debugger.

ghost use Rattle.pac_run.specs.Neutral.{DebuggersChangeNothing};
ghost use Rattle.pac_run.specs.Parts.{RunsInParts};

use pac_media::Out;

/// A run in parts, each from the state that the one before it has saved, gives what the run at once gives.
pub fn runs_in_parts()
    ensures { RunsInParts }
{}

/// What is so of a run under a debugger, by any answer but that its text was refused, is so of the run without one.
pub fn debuggers_change_nothing<F: Out, W: Out, L: Out, R: Out, T: Out>()
    ensures { DebuggersChangeNothing F.took F.refused W.took W.refused L.took L.refused R.took
        R.refused T.took T.refused }
{}
