//! The assembler and the disassembler behind a C interface: a host hands a source and its buffers in with each call. Nothing is kept
//! between calls; the memory that a call takes is the host's, by its `malloc`, `realloc` and `free`, and is given back before it ends.
#![tactic(auto)]

ghost use Rattle.pac_source.specs.Source as calls;

mod assembly;
mod codes;
mod instruction;
mod size;

pub use codes::{PacTold, SourceFault, ToldBytes};
use codes::{bytes_of, code, told_of};
pub use instruction::PacText;
use std::alloc::Global;

/// Assembles a source: the bytes of its program go to `rom`, and its listing to the head of `listing`, whose rest stays. The listing has a
/// row for each line of the source, with its address and its first four bytes, further rows where a line has more, and then the symbols, as
/// docs/FORMATS.md says. `told.listing` is how many bytes it has.
/// `WrongLength`: `rom` hasn't 16,384 bytes. `NoMemory`. `Fault`: the source has a fault, the one that `pacboard asm` tells; `told` has
/// its line and its number, docs/ASSEMBLER.md says what is wrong. `NoRoom`: `listing` has less room than `told.listing` bytes.
#[unsafe(no_mangle)]
pub extern "C" fn pac_assemble(
    alloc: Global,
    source: &[u8],
    rom: &mut [u8],
    listing: &mut [u8],
    told: &mut ToldBytes,
) -> u32
    ensures { calls.AnswersAndTells (λ answer.
        calls.AssemblesInto source.now rom.old listing.old answer rom.new listing.new) result
        told.new.bytes }
{
    let answer = assembly::assemble_into(alloc, source, rom, listing);
    told.bytes = bytes_of(&told_of(answer));
    code(answer)
}

/// Writes the text of the instruction that some bytes begin with, the first of them at an address, and answers how many of the bytes it
/// has; a byte that begins no instruction is told as DEFB. Of no bytes the text has none, and the answer is 0.
#[unsafe(no_mangle)]
pub extern "C" fn pac_disassemble(bytes: &[u8], address: u16, told: &mut PacText) -> u32
    ensures { calls.DisassemblesInto bytes.now address result told.new.bytes }
{
    instruction::disassemble_into(bytes, address, told)
}
