//! What holds of files and boards together.

ghost use Rattle.std.specs.Prelude.{◌≡◌, IfOk};
ghost use Rattle.pac_board.specs.Boxed.{unboxed};
ghost use Rattle.pac_board.specs.Fields.{state_of, AreBoardFields};
ghost use Rattle.pac_roms_manifest.specs.Sets.{digest_of};
ghost use Rattle.pac_state.specs.BlockLaws.{BlocksAreReadBack, StatesHaveBlocks};
ghost use Rattle.pac_state.specs.Files.{IsState};
ghost use Rattle.pac_state.specs.FilesLaws.{LoadsAgain, StatesAreReadBack, TextsTellStates};
ghost use Rattle.pac_state.specs.Saved as saved;
ghost use Rattle.pac_state.specs.Saves.{Saves};
ghost use Rattle.pac_state.specs.Text as text;
ghost use Rattle.pac_state.specs.Ties.{ReadingIsAccepting};

use crate::fault::LoadRefused;
use crate::loading::load;
use crate::ranges::in_range;
use crate::saving::save;
use pac_board::{Board, Fields, RomSet};
use pac_out::{Out, WriteFault};
use std::alloc::Global;

/// A file of version 2 that loads is, to the byte, what is saved of its board.
pub fn saved_again<W: Out>(
    alloc: Global,
    bytes: &[u8],
    set: RomSet,
    out: &mut W,
) -> Result<Result<(), WriteFault>, LoadRefused>
    requires { saved.version_in bytes.now ≡ text.written_version }
    ensures { IfOk result (λ written. Saves W.took W.refused out.old bytes.now written out.new) }
{
    match load(alloc, bytes, set) {
        Ok(board) => Ok(save(&board, out)),
        Err(refused) => Err(refused),
    }
}

/// Reading a state back out of its text gives the state.
pub fn states_are_read_back()
    ensures { StatesAreReadBack }
{}

/// Two states that have one text, with one set, are one state.
pub fn texts_tell_states()
    ensures { TextsTellStates }
{}

/// Reading a state back out of its block gives the state.
pub fn blocks_are_read_back()
    ensures { BlocksAreReadBack }
{}

/// What is written of a state is a block, so it is taken again.
pub fn states_have_blocks()
    ensures { StatesHaveBlocks }
{}

/// A board's state is in its ranges.
pub fn boards_have_states(board: &Board)
    ensures { IsState board.now.state }
{
    in_range(&board.fields());
}

/// The state of a board's fields is in its ranges.
pub fn fields_have_states(fields: &Fields)
    requires { AreBoardFields fields.now }
    ensures { IsState (state_of fields.now) }
{
    in_range(fields);
}

/// What was saved of a board, loaded with a set that has the digest of its own, is a board with the same state, or there
/// isn't the memory for it.
pub fn loaded_again(
    alloc: Global,
    board: &Board,
    bytes: &[u8],
    set: RomSet,
) -> Result<Box<Board>, LoadRefused>
    requires saved { bytes.now ≡ text.save_text text.written_version board.now.set board.now.state }
    requires set { digest_of set ≡ digest_of board.now.set }
    ensures { LoadsAgain set board.now (unboxed result) }
{
    boards_have_states(board);
    load(alloc, bytes, set)
}

/// What is read of bytes is what there is as a file.
pub fn reading_is_accepting()
    ensures { ReadingIsAccepting }
{}
