//! `run`: a ROM set, a script and perhaps a source become frames, sound, a listing and a report, from power-on or from a board that was
//! saved.

ghost use Rattle.std.specs.Prelude.{◌≡◌, ◌≤◌, ◌||◌, is_some, option_copied};
ghost use Rattle.pac_run_options.specs.CommandLineProofs.{told_play};
ghost use Rattle.pac_run_command.specs.EndingsProofs.{ending_told};
ghost use Rattle.pac_run_command.specs.Failures as told;
ghost use Rattle.pac_run_command.specs.Outputs.{PlaysRun};
ghost use Rattle.pac_run.specs.Run.{writing, writings};
ghost use Rattle.pac_run.specs.Writes.{refused_if_there, took_if_there};
ghost use Rattle.pac_run_command.specs.Programs.{PerformsRun, RunsOrResumes, performing};

use crate::failure::{Failure, failure_of, read_failure};
use crate::given::bytes_in;
use crate::outputs::Outputs;
use crate::program::tell;
use crate::record::{Manner, run_given};
use crate::teller::Teller;
use pac_run::{Out, Outcome, RunFault, RunInputs, Writers, resume_all, run_all};
use pac_run_files::{FileSystem, read_played};
use pac_run_options::PlayFiles;
use std::alloc::Global;

/// Whether a state is named, to begin with or to be saved.
fn names_state<S>(from: Option<&[u8]>, state: &Option<S>) -> bool
    ensures { result ≡ (is_some from.entry || is_some state.now) }
{
    from.is_some() || state.is_some()
}

/// A run where no state is named is that of `run_all`, and else that of `resume_all`.
fn run_or_resume<F: Out, W: Out, L: Out, R: Out, S: Out>(
    alloc: Global,
    inputs: &RunInputs,
    from: Option<&[u8]>,
    to: &mut Writers<F, W, L, R>,
    state: &mut Option<S>,
) -> Result<Outcome, RunFault>
    ensures { RunsOrResumes inputs.now (option_copied from.entry)
        (writings F.took F.refused W.took W.refused L.took L.refused R.took R.refused to.old to.new)
        (writing (took_if_there S.took) (refused_if_there S.refused) state.old state.new) state.old
        result }
{
    if !names_state(from, state) {
        return run_all(alloc, inputs, to);
    }
    resume_all(alloc, inputs, from, to, state)
}

/// A run of the program, its fault told as a failure.
pub fn run_inputs<F: Out, W: Out, L: Out, R: Out, S: Out>(
    alloc: Global,
    inputs: &RunInputs,
    from: Option<&[u8]>,
    to: &mut Writers<F, W, L, R>,
    state: &mut Option<S>,
) -> Result<Outcome, Failure<'static>>
    ensures { PerformsRun inputs.now (option_copied from.entry)
        (writings F.took F.refused W.took W.refused L.took L.refused R.took R.refused to.old to.new)
        (writing (took_if_there S.took) (refused_if_there S.refused) state.old state.new) result }
{
    match run_or_resume(alloc, inputs, from, to, state) {
        Ok(outcome) => Ok(outcome),
        Err(fault) => Err(failure_of(fault)),
    }
}

/// A run over the files of its outputs; the report goes to standard output.
pub(crate) fn run_over<F: Out, R: Out>(
    alloc: Global,
    inputs: &RunInputs,
    from: Option<&[u8]>,
    outputs: &mut Outputs<F>,
    report: &mut R,
) -> Result<Outcome, Failure<'static>>
    ensures { performing F.took F.refused (writing R.took R.refused report.old report.new)
        (option_copied from.entry)
        result inputs.now outputs.old outputs.new }
{
    let mut to = Writers {
        frames: &mut outputs.frames,
        wave: &mut outputs.wave,
        listing: &mut outputs.listing,
        report,
    };
    run_inputs(alloc, inputs, from, &mut to, &mut outputs.state)
}

/// Runs what the files of a command line hold, and answers the exit status. All is read before an output is created: source,
/// manifest, script, the state that the run begins from, if one is named, and the files that the manifest names.
#[inline(never)]
pub fn play<D: FileSystem, R: Out, T: Out, C: Teller>(
    alloc: Global,
    disk: &mut D,
    report: &mut R,
    text: &mut T,
    console: &mut C,
    files: &PlayFiles,
) -> u8
    ensures plays { PlaysRun (D.finds disk.old) D.handling
        (performing D.File.took D.File.refused (writing R.took R.refused report.old report.new))
        (report.new ≡ report.old) (ending_told C.tells C.explains console.old console.new result)
        (told_play files.now) disk.old disk.new }
    ensures untold { text.new ≡ text.old }
    ensures most { result ≤ told.most_status }
{
    match read_played(alloc, disk, files) {
        Ok((given, state)) => {
            let manner = Manner::Played(bytes_in(&state));
            run_given(alloc, disk, report, text, console, files, &given, manner)
        }
        Err(fault) => tell(console, read_failure(fault)),
    }
}
