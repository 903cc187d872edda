//! A board made from a state file.

ghost use Rattle.std.specs.Prelude.{◌≡◌, length};
ghost use Rattle.pac_board.specs.Boxed.{unboxed};
ghost use Rattle.pac_board.specs.RomParts.{Parts};
ghost use Rattle.pac_state.specs.FilesProofs.{Accepts};
ghost use Rattle.pac_state.specs.Saved as saved;
ghost use Rattle.pac_state.specs.SavedProofs as saved_proofs;
ghost use Rattle.pac_roms_manifest.specs.Sets.{digest_of};

use crate::fault::{LoadFault, LoadRefused};
use crate::header::{fault_of, word};
use crate::reading::fields_in;
use pac_board::{Board, Fields, RomSet};
use pac_roms_manifest::digest;
use std::alloc::Global;

/// The fields in a state file of a board whose ROM set has this digest, as they stand there; or the first of V1, V2, V3, V5, V6 and V4 that is
/// wrong with the file. Takes no memory.
pub fn read_file<'a>(digest: &[u8; 20], bytes: &'a [u8]) -> Result<Fields<'a>, LoadFault>
    ensures { (set : Parts) → digest_of set ≡ digest.now →
        saved_proofs.FindsFields set bytes.now result }
{
    if let Some(fault) = fault_of(digest, bytes) {
        return Err(fault);
    }
    match fields_in(bytes) {
        Some(fields) => Ok(fields),
        None => Err(LoadFault::OutOfRange),
    }
}

/// The version of a state file of the right size.
pub fn file_version(bytes: &[u8]) -> u16
    requires { length bytes.now ≡ saved.file_size }
    ensures { result ≡ saved.version_in bytes.now }
{
    word(bytes, 8)
}

/// Composes the lines that have passed where the board was in a file of version 1.
fn bring_up(board: &mut Board, version: u16)
    ensures { board.new ≡ saved.upgraded_board version board.old }
{
    if version == 1 {
        board.recompose();
    }
}

/// The board of a state file, with a copy of this ROM set, in a block of memory. Files of version 1 and 2 are taken; for version 1 the lines
/// of the picture that have passed since the last blank are composed. Refused with the first of V1, V2, V3, V5, V6 and V4 that is wrong with
/// the file, and then for want of memory. So exactly the texts of states in their ranges are taken.
pub fn load_with(alloc: Global, bytes: &[u8], set: &RomSet) -> Result<Box<Board>, LoadFault>
    ensures answer { saved_proofs.LoadsBoard set.now bytes.now
        (saved_proofs.refused_with set.now (unboxed result)) }
    ensures files { Accepts set.now bytes.now (saved_proofs.refused_with set.now (unboxed result)) }
{
    let fields = read_file(&digest(set), bytes)?;
    match Board::boxed(alloc, set, 0) {
        Ok(mut board) => {
            board.put_fields(&fields);
            bring_up(&mut board, file_version(bytes));
            Ok(board)
        }
        Err(_) => Err(LoadFault::NoMemory),
    }
}

/// The board of a state file with this ROM set, as `load_with` makes it; where it is refused, the set comes back.
pub fn load(alloc: Global, bytes: &[u8], set: RomSet) -> Result<Box<Board>, LoadRefused>
    ensures answer { saved_proofs.LoadsBoard set bytes.now (unboxed result) }
    ensures files { Accepts set bytes.now (unboxed result) }
{
    match load_with(alloc, bytes, &set) {
        Ok(board) => Ok(board),
        Err(fault) => Err(LoadRefused { fault, set }),
    }
}
