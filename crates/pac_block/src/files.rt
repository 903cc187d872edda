//! State files of a host's board.

ghost use Rattle.std.specs.Prelude.{◌≡◌, length};
ghost use Rattle.pac_state.specs.Saved.{file_size};
ghost use Rattle.pac_board.specs.Fields.{state_of, AreBoardFields};
ghost use Rattle.pac_state.specs.Text.{body, sealed_file, written_version};
ghost use Rattle.pac_block.specs.Host as host;

use crate::block::{PacBoard, open};
use crate::codes::HostFault;
use crate::passed::bring_up;
use crate::roms::{check_roms, digest};
use pac_board::Fields;
use pac_out::buffer::HostBuffer;
use pac_state::laws::fields_have_states;
use pac_state::{file_version, read_file, save_fields, write_block};

/// A state file in bytes.
pub const FILE_SIZE: usize = 67_756;

/// Writes the state file of the board that has these fields and a ROM set of this digest into a buffer of its size.
pub fn put_file(digest: &[u8; 20], fields: &Fields, text: &mut [u8])
    requires size { length text.old ≡ file_size }
    requires in_range { AreBoardFields fields.now }
    ensures { text.new ≡ sealed_file (body written_version digest.now (state_of fields.now)) }
{
    fields_have_states(fields);
    let mut buffer = HostBuffer {
        bytes: text,
        taken: 0,
    };
    // there is room for all of it, so nothing is refused
    let _ = save_fields(digest, fields, &mut buffer);
}

/// Writes the state file of a block's board.
pub fn save(block: &PacBoard, roms: &[u8], text: &mut [u8]) -> Result<(), HostFault>
    ensures { host.WritesFile roms.now block.now.bytes text.old result text.new }
{
    check_roms(roms)?;
    if text.len() != FILE_SIZE {
        return Err(HostFault::WrongLength);
    }
    let fields = open(block)?;
    put_file(&digest(roms), &fields, text);
    Ok(())
}

/// Takes the board of a state file of these ROMs.
pub fn load(block: &mut PacBoard, roms: &[u8], text: &[u8]) -> Result<(), HostFault>
    ensures { host.TakesFile roms.now text.now block.old.bytes result block.new.bytes }
{
    check_roms(roms)?;
    match read_file(&digest(roms), text) {
        Ok(fields) => {
            fields_have_states(&fields);
            write_block(&fields, &mut block.bytes);
            bring_up(file_version(text), &fields, roms, block);
            Ok(())
        }
        Err(fault) => Err(HostFault::NoFile(fault)),
    }
}
