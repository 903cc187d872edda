//! State files of a live board.

ghost use Rattle.std.specs.Prelude.{◌≡◌};
ghost use Rattle.pac_live.specs.Live as live_specs;
ghost use Rattle.pac_live.specs.LiveFiles as live_files;
ghost use Rattle.pac_state.specs.Saved.{upgraded_board};

use crate::live::PacLive;
use crate::live_calls::check_open;
use pac_block::HostFault;
use pac_block::files::{FILE_SIZE, put_file};
use pac_board::Board;
use pac_roms_manifest::digest;
use pac_state::{file_version, read_file};

/// Writes the state file of a board.
fn save_board(board: &mut Board, text: &mut [u8]) -> Result<(), HostFault>
    ensures { live_files.Saving text.old text.new result board.old board.new }
{
    if text.len() != FILE_SIZE {
        return Err(HostFault::WrongLength);
    }
    let set_digest = digest(board.set());
    let fields = board.fields();
    put_file(&set_digest, &fields, text);
    Ok(())
}

/// Writes the state file of a live board.
pub fn save(live: &mut PacLive, text: &mut [u8]) -> Result<(), HostFault>
    ensures { live_specs.Lives (text.new ≡ text.old) (live_files.Saving text.old text.new)
        result live.old live.new }
{
    check_open(live)?;
    save_board(live.board(), text)
}

/// Composes the lines that have passed where the board was in a file of version 1.
fn bring_up(board: &mut Board, version: u16)
    ensures { board.new ≡ upgraded_board version board.old }
{
    if version == 1 {
        board.recompose();
    }
}

/// Takes the state of a state file of a board's ROMs.
fn load_board(board: &mut Board, text: &[u8]) -> Result<(), HostFault>
    ensures { live_files.Loading text.now result board.old board.new }
{
    let set_digest = digest(board.set());
    match read_file(&set_digest, text) {
        Ok(fields) => {
            board.put_fields(&fields);
            bring_up(board, file_version(text));
            Ok(())
        }
        Err(fault) => Err(HostFault::NoFile(fault)),
    }
}

/// Takes the state of a state file of a live board's ROMs.
pub fn load(live: &mut PacLive, text: &[u8]) -> Result<(), HostFault>
    ensures { live_specs.Lives (Unit {0}) (live_files.Loading text.now) result live.old live.new }
{
    check_open(live)?;
    load_board(live.board(), text)
}
