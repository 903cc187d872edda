//! What was read of a run's files is run over its outputs, by itself or under a debugger.

ghost use Rattle.std.specs.Prelude.{◌≡◌, ◌≤◌};
ghost use Rattle.pac_run_options.specs.CommandLineProofs.{told_play, told_run};
ghost use Rattle.pac_run_files.specs.Read.{HasGivenFiles};
ghost use Rattle.pac_run_command.specs.Endings.{RunEnds};
ghost use Rattle.pac_run_command.specs.EndingsProofs.{ending_told};
ghost use Rattle.pac_run_command.specs.Failures as told;
ghost use Rattle.pac_run_command.specs.Outputs.{RecordsRun};
ghost use Rattle.pac_run_command.specs.RecordedProofs.{IsUnwatched, RunsGiven};
ghost use Rattle.pac_run_command.specs.RecordedProofs.{performing_in, silent_in};
ghost use Rattle.pac_run.specs.Run.{writing};

use crate::debug::debug_over;
use crate::failure::{Failure, end_status, read_failure};
use crate::given::inputs_of;
use crate::outputs::{Outputs, RunAnswer, begin_outputs, outputs_of, settle};
use crate::play::run_over;
use crate::program::tell;
use crate::teller::Teller;
use pac_run::{Out, Outcome, RunInputs};
use pac_run_files::{FileSystem, Given, NamedFile, manifest_in, parts_of, read_parts};
use pac_run_options::PlayFiles;
use std::alloc::Global;

/// How a run is done.
#[derive(Clone, Copy)]
pub enum Manner<'a> {
    /// From power-on, or from the board of a state file of these bytes.
    Played(Option<&'a [u8]>),
    /// From power-on, under a debugger that does these commands.
    Watched(&'a [u8]),
}

/// A run over the files of its outputs; report and text go to standard output.
fn perform<F: Out, R: Out, T: Out>(
    alloc: Global,
    inputs: &RunInputs,
    manner: Manner,
    outputs: &mut Outputs<F>,
    report: &mut R,
    text: &mut T,
) -> RunAnswer
    ensures performs { performing_in F.took F.refused
        (writing R.took R.refused report.old report.new)
        (writing T.took T.refused text.old text.new) manner.entry
        result inputs.now outputs.old outputs.new }
    ensures untold { IsUnwatched manner.entry → text.new ≡ text.old }
{
    match manner {
        Manner::Played(from) => run_over(alloc, inputs, from, outputs, report),
        Manner::Watched(commands) => debug_over(alloc, inputs, commands, outputs, report, text),
    }
}

/// Begins the outputs, runs what was read, and settles what becomes of them.
fn record<D: FileSystem, R: Out, T: Out>(
    alloc: Global,
    disk: &mut D,
    report: &mut R,
    text: &mut T,
    files: &PlayFiles,
    given: &Given,
    named: &[NamedFile],
    manner: Manner,
) -> RunAnswer
    ensures records { RecordsRun D.handling
        (performing_in D.File.took D.File.refused (writing R.took R.refused report.old report.new)
        (writing T.took T.refused text.old text.new) manner.entry)
        (silent_in manner.entry (report.new ≡ report.old) (text.new ≡ text.old))
        (told_play files.now) given.now named.now disk.old result disk.new }
    ensures untold { IsUnwatched manner.entry → text.new ≡ text.old }
{
    let Ok(parts) = parts_of(alloc, named) else {
        return Err(Failure::Memory);
    };
    let inputs = inputs_of(&files.run, given, &parts);
    let wanted = outputs_of(files);
    let mut outputs = match begin_outputs(disk, &wanted) {
        Ok(outputs) => outputs,
        Err(failure) => return Err(failure),
    };
    let ran = perform(alloc, &inputs, manner, &mut outputs, report, text);
    settle(disk, &wanted, outputs, ran)
}

/// The status of a run that ended or failed; a failure is told.
fn end<C: Teller>(console: &mut C, ran: Result<Outcome, Failure>) -> u8
    ensures ends { RunEnds (ending_told C.tells C.explains console.old console.new result)
        ran.entry }
    ensures most { result ≤ told.most_status }
{
    match ran {
        Ok(outcome) => end_status(outcome.stop),
        Err(failure) => tell(console, failure),
    }
}

/// Runs what the files of a command line hold, once those that it names are read, and answers the exit status: the files that the
/// manifest names are read before an output is created.
pub(crate) fn run_given<D: FileSystem, R: Out, T: Out, C: Teller>(
    alloc: Global,
    disk: &mut D,
    report: &mut R,
    text: &mut T,
    console: &mut C,
    files: &PlayFiles,
    given: &Given,
    manner: Manner,
) -> u8
    requires { HasGivenFiles (D.finds disk.old) (told_run files.now.run) given.now }
    ensures runs { RunsGiven (D.finds disk.old) D.handling
        (performing_in D.File.took D.File.refused (writing R.took R.refused report.old report.new)
        (writing T.took T.refused text.old text.new) manner.entry)
        (silent_in manner.entry (report.new ≡ report.old) (text.new ≡ text.old))
        (ending_told C.tells C.explains console.old console.new result)
        (told_play files.now) disk.old disk.new }
    ensures untold { IsUnwatched manner.entry → text.new ≡ text.old }
    ensures most { result ≤ told.most_status }
{
    let Ok(manifest) = manifest_in(alloc, &given.manifest) else {
        return tell(console, Failure::Memory);
    };
    match read_parts(alloc, disk, files.run.set, &manifest) {
        Ok(named) => end(
            console,
            record(alloc, disk, report, text, files, given, &named, manner),
        ),
        Err(fault) => tell(console, read_failure(fault)),
    }
}
