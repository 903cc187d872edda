//! `debug`: a run under a debugger, whose commands a file has.

ghost use Rattle.std.specs.Prelude.{◌≡◌, ◌≤◌};
ghost use Rattle.pac_run_options.specs.CommandLineProofs.{told_debug};
ghost use Rattle.pac_run_command.specs.EndingsProofs.{ending_told};
ghost use Rattle.pac_run_command.specs.Failures as told;
ghost use Rattle.pac_run_command.specs.Outputs.{WatchesRun};
ghost use Rattle.pac_run.specs.Run.{writing, writings};
ghost use Rattle.pac_run_command.specs.Programs.{PerformsWatched, watching};

use crate::failure::{Failure, failure_of, read_failure};
use crate::outputs::Outputs;
use crate::program::tell;
use crate::record::{Manner, run_given};
use crate::teller::Teller;
use pac_run::{Out, Outcome, RunInputs, Writers, debug_all};
use pac_run_files::{FileSystem, read_watched};
use pac_run_options::{DebugFiles, PlayFiles};
use std::alloc::Global;

/// A run of the program under a debugger: that of `debug_all`, its fault told as a failure.
pub fn debug_inputs<F: Out, W: Out, L: Out, R: Out, T: Out>(
    alloc: Global,
    inputs: &RunInputs,
    commands: &[u8],
    to: &mut Writers<F, W, L, R>,
    text: &mut T,
) -> Result<Outcome, Failure<'static>>
    ensures { PerformsWatched inputs.now commands.now
        (writings F.took F.refused W.took W.refused L.took L.refused R.took R.refused to.old to.new)
        (writing T.took T.refused text.old text.new) result }
{
    match debug_all(alloc, inputs, commands, to, text) {
        Ok(outcome) => Ok(outcome),
        Err(fault) => Err(failure_of(fault)),
    }
}

/// A run under a debugger over the files of its outputs; report and text go to standard output.
pub(crate) fn debug_over<F: Out, R: Out, T: Out>(
    alloc: Global,
    inputs: &RunInputs,
    commands: &[u8],
    outputs: &mut Outputs<F>,
    report: &mut R,
    text: &mut T,
) -> Result<Outcome, Failure<'static>>
    ensures { watching F.took F.refused (writing R.took R.refused report.old report.new)
        (writing T.took T.refused text.old text.new)
        commands.now result inputs.now outputs.old outputs.new }
{
    let mut to = Writers {
        frames: &mut outputs.frames,
        wave: &mut outputs.wave,
        listing: &mut outputs.listing,
        report,
    };
    debug_inputs(alloc, inputs, commands, &mut to, text)
}

/// Runs what the files of a command line hold under a debugger, and answers the exit status. All is read before an output is
/// created: source, manifest, script, commands, and the files that the manifest names.
#[inline(never)]
pub fn debug<D: FileSystem, R: Out, T: Out, C: Teller>(
    alloc: Global,
    disk: &mut D,
    report: &mut R,
    text: &mut T,
    console: &mut C,
    files: &DebugFiles,
) -> u8
    ensures watches { WatchesRun (D.finds disk.old) D.handling
        (watching D.File.took D.File.refused (writing R.took R.refused report.old report.new)
        (writing T.took T.refused text.old text.new))
        ((report.new ≡ report.old) × (text.new ≡ text.old))
        (ending_told C.tells C.explains console.old console.new result)
        (told_debug files.now) disk.old disk.new }
    ensures most { result ≤ told.most_status }
{
    match read_watched(alloc, disk, files) {
        Ok((given, commands)) => {
            let run = PlayFiles {
                run: files.run,
                load: None,
                save: None,
            };
            let manner = Manner::Watched(&commands);
            run_given(alloc, disk, report, text, console, &run, &given, manner)
        }
        Err(fault) => tell(console, read_failure(fault)),
    }
}
