//! The run as one call.

ghost use Rattle.std.specs.Prelude.{◌≡◌, option_copied};
ghost use Rattle.pac_media.specs.CountedProofs.{Puts};
ghost use Rattle.pac_board_course.specs.CourseProofs.{FitsAsked, FitsTime};
ghost use Rattle.pac_board_course.specs.Course.{begun};
ghost use Rattle.pac_run.specs.Plan.{listing_in};
ghost use Rattle.pac_run.specs.Playing.{played};
ghost use Rattle.pac_run.specs.Recorded.{RunsTo, WritesPlay, WritesWholeText};
ghost use Rattle.pac_run.specs.Run.{Runs, writing, writings};
ghost use Rattle.pac_run.specs.Texts as text;

use crate::fault::{Output, RunFault};
use crate::film::record_run;
use crate::inputs::RunInputs;
use crate::plan::{Prepared, prepare};
use crate::play::Plays;
use crate::report::put_report;
use crate::writers::Writers;
use pac_asm::Program;
use pac_board_course::{Board, Course, Outcome, Script};
use pac_listing::write_listing;
use pac_media::{Counted, Image, Out, WriteFault};
use pac_state::laws::boards_have_states;
use std::alloc::Global;

/// Puts the listing into its file: without a source it has no lines and no symbols.
fn put_listing<L: Out>(
    file: &mut Counted<L>,
    source: Option<&[u8]>,
    program: &Option<Program>,
) -> Result<(), WriteFault>
    ensures { Puts L.took L.refused file.old
        (listing_in (option_copied source.entry) program.now) result file.new }
{
    match (source, program) {
        (Some(source), Some(program)) => write_listing(file, program, source),
        _ => file.put(b"SYMBOLS\n"),
    }
}

/// Writes the listing.
fn list<L: Out>(
    listing: &mut L,
    source: Option<&[u8]>,
    program: &Option<Program>,
) -> Result<(), WriteFault>
    ensures { WritesWholeText
        (writing L.took L.refused listing.old listing.new)
        (listing_in (option_copied source.entry) program.now) result }
{
    let mut file = Counted::new(listing);
    let written = put_listing(&mut file, source, program);
    let _ = file.into_writer();
    written
}

/// Writes the report of what a run of so many frames came to.
fn report_on<R: Out>(report: &mut R, outcome: Outcome, total: u32) -> Result<(), WriteFault>
    ensures { WritesWholeText
        (writing R.took R.refused report.old report.new)
        (text.report outcome total) result }
{
    let mut file = Counted::new(report);
    let written = put_report(&mut file, outcome, total);
    let _ = file.into_writer();
    written
}

/// A script on a board, at its beginning.
fn begin(board: Box<Board>, script: Script) -> Course
    requires time { FitsTime board.value script }
    requires asked { FitsAsked board.value script }
    ensures { result ≡ begun board.value script }
{
    Course::new(board, script)
}

/// Writes all that a run gives out, in order: the listing; then wave and frames, as they come; then the report.
#[inline(never)]
pub(crate) fn write_all<F: Out, W: Out, L: Out, R: Out, P: Plays>(
    inputs: &RunInputs,
    program: &Option<Program>,
    player: &mut P,
    image: Image,
    to: &mut Writers<F, W, L, R>,
) -> Result<Outcome, RunFault>
    requires { P.playing.ready player.old }
    ensures { WritesPlay (played P.playing player.old player.new)
        (listing_in (option_copied inputs.now.source) program.now)
        (writings F.took F.refused W.took W.refused L.took L.refused R.took R.refused to.old to.new)
        result }
{
    let total = player.total();
    if let Err(fault) = list(&mut to.listing, inputs.source, program) {
        return Err(RunFault::Write(Output::Listing, fault.count));
    }
    let outcome = match record_run(player, image, &mut to.frames, &mut to.wave) {
        Ok(outcome) => outcome,
        Err(fault) => return Err(RunFault::Write(fault.output, fault.count)),
    };
    match report_on(&mut to.report, outcome, total) {
        Ok(()) => Ok(outcome),
        Err(fault) => Err(RunFault::Write(Output::Report, fault.count)),
    }
}

/// What a run came to, and the board at its end.
#[derive(Drop)]
pub struct RunEnd {
    /// What it came to.
    pub outcome: Outcome,
    /// The board.
    pub board: Box<Board>,
}

/// A run from power-on, or from the board of a state file.
pub(crate) fn run_from<F: Out, W: Out, L: Out, R: Out>(
    alloc: Global,
    inputs: &RunInputs,
    from: Option<&[u8]>,
    to: &mut Writers<F, W, L, R>,
) -> Result<RunEnd, RunFault>
    ensures { RunsTo inputs.now (option_copied from.entry)
        (writings F.took F.refused W.took W.refused
        L.took L.refused R.took R.refused to.old to.new) result }
{
    let Prepared {
        program,
        board,
        script,
        image,
    } = prepare(alloc, inputs, from)?;
    let mut course = begin(board, script);
    let outcome = match write_all(inputs, &program, &mut course, image, to) {
        Ok(outcome) => outcome,
        Err(fault) => return Err(fault),
    };
    let board = course.into_board();
    // (a law, with nothing to run: a board's state is in its ranges)
    boards_have_states(&board);
    Ok(RunEnd { outcome, board })
}

/// Runs a source, or the program of a ROM set, on the board while a script holds its inputs. To four outputs go the
/// images of the frames whose vertical blank came, as binary PPM one after another; the sound, as a wave file; the
/// listing; and the report. Source, set and script are judged, in this order, and all memory is found before anything
/// is written.
pub fn run_all<F: Out, W: Out, L: Out, R: Out>(
    alloc: Global,
    inputs: &RunInputs,
    to: &mut Writers<F, W, L, R>,
) -> Result<Outcome, RunFault>
    ensures { Runs inputs.now (writings F.took F.refused W.took W.refused
        L.took L.refused R.took R.refused to.old to.new) result }
{
    match run_from(alloc, inputs, None, to) {
        Ok(ran) => Ok(ran.outcome),
        Err(fault) => Err(fault),
    }
}
