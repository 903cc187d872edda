//! The outputs of a run: they are begun, and once the run is over it is settled what becomes of them.

ghost use Rattle.std.specs.Prelude.{◌≡◌, ◌∷◌, IfErr, IfOk, map, option_copied, option_to_list};
ghost use Rattle.pac_run_options.specs.CommandLineProofs.{told_play};
ghost use Rattle.pac_run_files.specs.Files.{AllBegun, FirstUnbegun, IsBegun, IsLetGo};
ghost use Rattle.pac_run_command.specs.FailuresProofs.{Opens};
ghost use Rattle.pac_run_command.specs.Outputs.{InTurn, IsSettled, IsWrittenOut, Settles, by_call};
ghost use Rattle.pac_run_command.specs.Outputs.{run_output_files};
ghost use Rattle.pac_run_command.specs.Outputs.{run_outputs, state_output, takes_place_by};
ghost use Rattle.pac_run_command.specs.OutputsProofs.{told_outputs, told_wanted};
ghost use Rattle.pac_run_command.specs.declared.failure.Target.TheVariants.{Of};

use crate::failure::{Failure, Target};
use pac_run::{Outcome, Output, WriteFault};
use pac_run_files::FileSystem;
use pac_run_options::PlayFiles;

/// The files of a run's frames, wave, listing and state.
#[derive(Drop)]
pub struct Outputs<F> {
    /// The file of the pictures.
    pub frames: F,
    /// The file of the sound.
    pub wave: F,
    /// The file of the listing.
    pub listing: F,
    /// The file of the board's state at the end, if one is named.
    pub state: Option<F>,
}

/// An output that is to be begun.
#[derive(Clone, Copy)]
pub struct Wanted<'a> {
    /// Which it is.
    pub output: Target,
    /// The path of its file.
    pub path: &'a str,
    /// Whether it is a draft, which takes its place once it is whole, and so are those beside it.
    pub is_draft: bool,
}

/// The outputs of a run that are to be begun.
#[derive(Clone, Copy)]
pub struct RunOutputs<'a> {
    /// The pictures.
    pub frames: Wanted<'a>,
    /// The sound.
    pub wave: Wanted<'a>,
    /// The listing.
    pub listing: Wanted<'a>,
    /// The board's state at the end, if a file is named for it.
    pub state: Option<Wanted<'a>>,
}

/// What a run comes to.
pub type RunAnswer = Result<Outcome, Failure<'static>>;

/// An output of the film: a draft where the outputs are to take their places once all of them are whole.
fn of_film<'a>(output: Output, path: &'a str, is_draft: bool) -> Wanted<'a>
    ensures { told_wanted result ≡ record {
      output = Of output;
      path = path.entry.now;
      is_draft = is_draft;
    } }
{
    Wanted {
        output: Target::Of(output),
        path,
        is_draft,
    }
}

/// The state, where a file is named for it; it is a draft in any case.
fn state_of<'a>(path: Option<&'a str>) -> Option<Wanted<'a>>
    ensures { map told_wanted (option_to_list result) ≡ state_output (option_copied path.entry) }
{
    match path {
        None => None,
        Some(path) => Some(Wanted {
            output: Target::Of(Output::State),
            path,
            is_draft: true,
        }),
    }
}

/// The outputs that a command line asks for.
pub(crate) fn outputs_of<'a>(files: &PlayFiles<'a>) -> RunOutputs<'a>
    ensures { told_outputs result ≡ run_outputs (told_play files.now) }
{
    let is_draft = files.run.whole;
    RunOutputs {
        frames: of_film(Output::Frames, files.run.frames, is_draft),
        wave: of_film(Output::Wave, files.run.wave, is_draft),
        listing: of_film(Output::Listing, files.run.listing, is_draft),
        state: state_of(files.save),
    }
}

/// Begins an output: a draft, or the file itself, empty.
fn begin<D: FileSystem>(disk: &mut D, wanted: &Wanted) -> Option<D::File>
    ensures { IsBegun D.handling disk.old (told_wanted wanted.now) result disk.new }
{
    if wanted.is_draft {
        disk.draft(wanted.path)
    } else {
        disk.create(wanted.path)
    }
}

/// Lets an output go: a draft is thrown away, and a file that was created is closed as it is.
fn let_go<D: FileSystem>(disk: &mut D, wanted: &Wanted, file: D::File)
    ensures { IsLetGo D.handling disk.old (told_wanted wanted.now) file disk.new }
{
    if wanted.is_draft {
        disk.discard(wanted.path, file);
    } else {
        disk.close(file);
    }
}

/// Begins the listing, and the state, if one is named; where that can't be, the listing is let go.
fn begin_listing_and_state<D: FileSystem>(
    disk: &mut D,
    wanted: &RunOutputs,
) -> Result<(D::File, Option<D::File>), Target>
    ensures begun { IfOk result (λ files. AllBegun D.handling disk.old
        (told_wanted wanted.now.listing ∷ map told_wanted (option_to_list wanted.now.state))
        (files.0 ∷ option_to_list files.1) disk.new) }
    ensures unbegun { IfErr result (λ output. FirstUnbegun D.handling disk.old
        (told_wanted wanted.now.listing ∷ map told_wanted (option_to_list wanted.now.state))
        output disk.new) }
{
    let Some(listing) = begin(disk, &wanted.listing) else {
        return Err(wanted.listing.output);
    };
    let Some(saved) = wanted.state else {
        return Ok((listing, None));
    };
    let Some(state) = begin(disk, &saved) else {
        let_go(disk, &wanted.listing, listing);
        return Err(saved.output);
    };
    Ok((listing, Some(state)))
}

/// Begins the outputs of a run, in their order. Where one can't be, those before it are let go, the last one first.
pub fn begin_outputs<D: FileSystem>(
    disk: &mut D,
    wanted: &RunOutputs,
) -> Result<Outputs<D::File>, Failure<'static>>
    ensures { Opens
        (λ outputs. AllBegun D.handling disk.old (told_outputs wanted.now)
        (run_output_files outputs) disk.new)
        (λ output. FirstUnbegun D.handling disk.old (told_outputs wanted.now) output disk.new)
        result }
{
    let Some(frames) = begin(disk, &wanted.frames) else {
        return Err(Failure::Write(wanted.frames.output, 0));
    };
    let Some(wave) = begin(disk, &wanted.wave) else {
        let_go(disk, &wanted.frames, frames);
        return Err(Failure::Write(wanted.wave.output, 0));
    };
    match begin_listing_and_state(disk, wanted) {
        Ok((listing, state)) => Ok(Outputs {
            frames,
            wave,
            listing,
            state,
        }),
        Err(output) => {
            let_go(disk, &wanted.wave, wave);
            let_go(disk, &wanted.frames, frames);
            Err(Failure::Write(output, 0))
        }
    }
}

/// What a call for an output comes to, after a run that is done.
fn after_call(output: Target, outcome: Outcome, done: Result<(), WriteFault>) -> RunAnswer
    ensures { result ≡ by_call output outcome done }
{
    match done {
        Ok(()) => Ok(outcome),
        Err(fault) => Err(Failure::Write(output, fault.count)),
    }
}

/// Has the system write out the draft of a run that is done so far.
fn write_out<D: FileSystem>(
    disk: &mut D,
    wanted: &Wanted,
    file: &D::File,
    ran: RunAnswer,
) -> RunAnswer
    ensures { IsWrittenOut D.handling disk.old (told_wanted wanted.now) file.now
        ran.entry result disk.new }
{
    match ran {
        Ok(outcome) if wanted.is_draft => after_call(wanted.output, outcome, disk.sync(file)),
        ran => ran,
    }
}

/// Puts an output of a run that is done so far in its place: a draft takes it, and a file that was created is closed.
fn put_in_place<D: FileSystem>(
    disk: &mut D,
    wanted: &Wanted,
    file: D::File,
    outcome: Outcome,
) -> RunAnswer
    ensures { takes_place_by D.handling wanted.now.is_draft disk.old wanted.now.output
        wanted.now.path.now file outcome result disk.new }
{
    if wanted.is_draft {
        return after_call(wanted.output, outcome, disk.publish(wanted.path, file));
    }
    disk.close(file);
    Ok(outcome)
}

/// Settles an output: that of a run that is done so far takes its place, and that of one that failed is let go.
fn settle_output<D: FileSystem>(
    disk: &mut D,
    wanted: &Wanted,
    file: D::File,
    ran: RunAnswer,
) -> RunAnswer
    ensures { IsSettled D.handling disk.old (told_wanted wanted.now) file
        ran.entry result disk.new }
{
    match ran {
        Ok(outcome) => put_in_place(disk, wanted, file, outcome),
        Err(failure) => {
            let_go(disk, wanted, file);
            Err(failure)
        }
    }
}

/// Has the system write out the draft of the state, if one is named.
fn write_state_out<D: FileSystem>(
    disk: &mut D,
    wanted: Option<Wanted>,
    file: &Option<D::File>,
    ran: RunAnswer,
) -> RunAnswer
    ensures { InTurn (IsWrittenOut D.handling) disk.old
        (map told_wanted (option_to_list wanted.entry)) (option_to_list file.now) ran.entry
        result disk.new }
{
    let Some(saved) = wanted else {
        return ran;
    };
    match file {
        Some(state) => write_out(disk, &saved, state, ran),
        None => ran,
    }
}

/// Settles the state, if one is named.
fn settle_state<D: FileSystem>(
    disk: &mut D,
    wanted: Option<Wanted>,
    file: Option<D::File>,
    ran: RunAnswer,
) -> RunAnswer
    ensures { InTurn (IsSettled D.handling) disk.old (map told_wanted (option_to_list wanted.entry))
        (option_to_list file) ran.entry
        result disk.new }
{
    let Some(saved) = wanted else {
        return ran;
    };
    match file {
        Some(state) => settle_output(disk, &saved, state, ran),
        None => ran,
    }
}

/// Has the system write out each draft of a run that is done, in the order of the outputs, up to the first that it can't.
fn write_all_out<D: FileSystem>(
    disk: &mut D,
    wanted: &RunOutputs,
    outputs: &Outputs<D::File>,
    ran: RunAnswer,
) -> RunAnswer
    ensures { InTurn (IsWrittenOut D.handling) disk.old (told_outputs wanted.now)
        (run_output_files outputs.now) ran.entry result disk.new }
{
    let ran = write_out(disk, &wanted.frames, &outputs.frames, ran);
    let ran = write_out(disk, &wanted.wave, &outputs.wave, ran);
    let ran = write_out(disk, &wanted.listing, &outputs.listing, ran);
    write_state_out(disk, wanted.state, &outputs.state, ran)
}

/// Settles each output, in their order.
fn settle_all<D: FileSystem>(
    disk: &mut D,
    wanted: &RunOutputs,
    outputs: Outputs<D::File>,
    ran: RunAnswer,
) -> RunAnswer
    ensures { InTurn (IsSettled D.handling) disk.old (told_outputs wanted.now)
        (run_output_files outputs) ran.entry result disk.new }
{
    let Outputs {
        frames,
        wave,
        listing,
        state,
    } = outputs;
    let ran = settle_output(disk, &wanted.frames, frames, ran);
    let ran = settle_output(disk, &wanted.wave, wave, ran);
    let ran = settle_output(disk, &wanted.listing, listing, ran);
    settle_state(disk, wanted.state, state, ran)
}

/// Settles what becomes of the outputs of a run: once all drafts are written out they take their places, the state last; those of a run that
/// failed are thrown away.
pub fn settle<D: FileSystem>(
    disk: &mut D,
    wanted: &RunOutputs,
    outputs: Outputs<D::File>,
    ran: RunAnswer,
) -> RunAnswer
    ensures { Settles D.handling (told_outputs wanted.now) (run_output_files outputs) disk.old
        ran.entry result disk.new }
{
    let ran = write_all_out(disk, wanted, &outputs, ran);
    settle_all(disk, wanted, outputs, ran)
}
