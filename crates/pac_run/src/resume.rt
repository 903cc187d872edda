//! A run that may begin with a state file, and whose end is saved as one.

ghost use Rattle.std.specs.Prelude.{option_copied};
ghost use Rattle.pac_run.specs.Resumes.{Resumes};
ghost use Rattle.pac_run.specs.Recorded.{WritesWholeText};
ghost use Rattle.pac_run.specs.Run.{writing, writings};
ghost use Rattle.pac_state.specs.Text.{save_text, written_version};

use crate::fault::{Output, RunFault};
use crate::inputs::RunInputs;
use crate::run::run_from;
use crate::writers::Writers;
use pac_board_course::{Board, Outcome};
use pac_media::{Out, WriteFault};
use pac_state::save;
use std::alloc::Global;

/// Writes the state of a board.
fn put_state<S: Out>(board: &Board, state: &mut S) -> Result<(), WriteFault>
    ensures { WritesWholeText
        (writing S.took S.refused state.old state.new)
        (save_text written_version board.now.set board.now.state) result }
{
    save(board, state)
}

/// The run of `run_all`, and two things more: where it is given the bytes of a state file it begins with that file's board, in place
/// of power-on; and a fifth output gets the state of the board at its end, after all else. A board is taken up between two frames
/// alone, so that a run that was cut, saved and resumed gives what the run at once gives; its frames, steps and T-states are
/// counted from there on. The state file is judged after source, set and script. All memory is found before anything is written.
pub fn resume_all<F: Out, W: Out, L: Out, R: Out, S: Out>(
    alloc: Global,
    inputs: &RunInputs,
    from: Option<&[u8]>,
    to: &mut Writers<F, W, L, R>,
    state: &mut S,
) -> Result<Outcome, RunFault>
    ensures { Resumes inputs.now (option_copied from.entry)
        (writings F.took F.refused W.took W.refused
        L.took L.refused R.took R.refused to.old to.new)
        (writing S.took S.refused state.old state.new) result }
{
    let ran = match run_from(alloc, inputs, from, to) {
        Ok(ran) => ran,
        Err(fault) => return Err(fault),
    };
    match put_state(&ran.board, state) {
        Ok(()) => Ok(ran.outcome),
        Err(fault) => Err(RunFault::Write(Output::State, fault.count)),
    }
}
