//! The laws of the files of a run's outputs.

ghost use Rattle.pac_run_command.specs.WholeOutputs.{AllOutputsAreWhole, StatesAreWhole};

use pac_run::Out;
use pac_run_files::FileSystem;

/// At each moment of a run the file of an output that takes its place is what it was, or the whole new one.
pub fn outputs_are_whole<D: FileSystem, R: Out, T: Out>()
    ensures { AllOutputsAreWhole D.handling D.File.took D.File.refused R.took
        R.refused T.took T.refused }
{}

/// The file of a state that is saved is what it was at the end of a run that failed, and has the new state at the end of one that was done.
pub fn states_are_whole<D: FileSystem, R: Out>()
    ensures { StatesAreWhole D.handling D.File.took D.File.refused R.took R.refused }
{}
