//! A run under a debugger as one call.

ghost use Rattle.std.specs.Prelude.{◌≡◌, IfOk, IfErr};
ghost use Rattle.pac_debug.specs.SessionProofs.{IsNew};
ghost use Rattle.pac_debug.specs.Session.{session_at_start};
ghost use Rattle.pac_run.specs.declared.fault.RunFault.TheVariants.{NoMemory};
ghost use Rattle.pac_run.specs.Debugs.{Debugs};
ghost use Rattle.pac_run.specs.Run.{writing, writings};

use crate::fault::RunFault;
use crate::inputs::RunInputs;
use crate::plan::{Prepared, prepare};
use crate::run::write_all;
use crate::watch::Watching;
use crate::writers::Writers;
use pac_board_course::{Board, Outcome, Script};
use pac_debug::Session;
use pac_media::Out;
use std::alloc::Global;

/// A session over what is played, at the beginning of its run. Refused for want of memory alone.
fn session(alloc: Global, board: Box<Board>, script: Script) -> Result<Session, RunFault>
    requires { IsNew board.value }
    ensures begun { IfOk result (λ session. session ≡ session_at_start (record {
      set = board.value.set;
      switches = board.value.state.now.board.memory.switches;
      script = script;
    }) board.value.made) }
    ensures refused { IfErr result (λ fault. fault ≡ NoMemory) }
{
    match Session::new(alloc, board, script) {
        Ok(session) => Ok(session),
        Err(_) => Err(RunFault::NoMemory),
    }
}

/// The run of `run_all` under a debugger: the commands, a line each, are done first, and then the run goes on to the script's end.
/// Images, sound, listing and report are those of `run_all`, whatever the commands do; a fifth output gets what they tell. All
/// memory is found before anything is written.
pub fn debug_all<F: Out, W: Out, L: Out, R: Out, T: Out>(
    alloc: Global,
    inputs: &RunInputs,
    commands: &[u8],
    to: &mut Writers<F, W, L, R>,
    text: &mut T,
) -> Result<Outcome, RunFault>
    ensures { Debugs inputs.now commands.now (writings F.took F.refused W.took W.refused
        L.took L.refused R.took R.refused to.old to.new)
        (writing T.took T.refused text.old text.new) result }
{
    let Prepared {
        program,
        board,
        script,
        image,
    } = prepare(alloc, inputs, None)?;
    let mut watching = Watching {
        session: Some(session(alloc, board, script)?),
        commands,
        text,
    };
    let written = write_all(inputs, &program, &mut watching, image, to);
    let _ = watching.into_text();
    written
}
