//! What the processor would read of a block's board.

ghost use Rattle.std.specs.Prelude.{◌≡◌, ◌+◌, length};
ghost use Rattle.pac_board.specs.MemoryContents.{read_of};
ghost use Rattle.pac_block.specs.Host as host;
ghost use Rattle.pac_num.specs.Numbers.{wrapped_address};
ghost use Rattle.pac_num.specs.Tabulate.{tabulate};

use crate::block::{PacBoard, open};
use crate::codes::HostFault;
use crate::roms::{check_roms, program_of};
use pac_map::Memory;
use pac_num::offset;

/// Writes what the processor would read at as many addresses as there is room for, from one on.
fn put_read(program: &[u8; 16384], memory: &Memory, address: u16, bytes: &mut [u8])
    ensures { bytes.new ≡ tabulate (length bytes.old)
        (λ place. read_of program.now memory.now (wrapped_address (address + place))) }
{
    let mut at = address;
    for place in 0..bytes.len() {
        bytes[place] = memory.read(program, at);
        at = offset(at, 1);
    }
}

/// Writes what the processor would read of a block's board at as many addresses as there is room for, from one on.
pub fn peek(block: &PacBoard, roms: &[u8], address: u16, bytes: &mut [u8]) -> Result<(), HostFault>
    ensures { host.Peeks roms.now block.now.bytes address bytes.old result bytes.new }
{
    check_roms(roms)?;
    let fields = open(block)?;
    put_read(
        program_of(roms),
        &Memory::of(&fields.memory),
        address,
        bytes,
    );
    Ok(())
}
