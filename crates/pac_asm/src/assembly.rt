//! A source as a whole.

ghost use Rattle.std.specs.Prelude.{◌≡◌, IfOk, Ok, flat_map};
ghost use Rattle.std.specs.Str.Lines.{lines as text_lines};
ghost use Rattle.pac_code.specs.Items.{AllLie};
ghost use Rattle.pac_asm_program.specs.Programs.{items_in, items_of};
ghost use Rattle.pac_asm_program.specs.Rom.{rom_of};
ghost use Rattle.pac_asm_program.specs.RomLaws.{AreApart};
ghost use Rattle.pac_asm_program.specs.RomProofs.{IsZeroElsewhere};
ghost use Rattle.pac_asm.specs.Assignments.{OneIsRight};
ghost use Rattle.pac_asm.specs.Entries.{HasEntriesOf};
ghost use Rattle.pac_asm.specs.Errors.{AssemblyGives};
ghost use Rattle.pac_asm.specs.Programs.{program_of};

use crate::fault::{AsmCode, AsmError, LineError};
use crate::lines::{MOST_LINES, has_too_many_lines};
use crate::phase1::lay_out;
use crate::phase2::fill_in;
use pac_asm_program::{Line, Program, Symbols, apart_items_lie, rom_of};
use std::alloc::Global;

/// The program of a source, or its first fault: A7 before all others; then the first line that has a fault of the
/// first phase, A1 to A6, A12 to A14 or A10 where a value is needed at once; then the first line that has one of the
/// second, A8, A10 or A9.
///
/// Lines end at LF, and one CR before it is dropped. The bytes of a line stand where the last ORG (0 at first) and the
/// sizes since put them.
#[tactic(auto, unfolding(crate::specs::Programs::program_of))]
pub fn assemble(alloc: Global, source: &[u8]) -> Result<Program, AsmError>
    ensures exact { AssemblyGives result (program_of source.now) }
    // No two items share an address; each lies wholly in the ROM, which has its bytes there, and 0 where no item lies.
    ensures apart { IfOk result (λ program. AreApart (items_of program)) }
    ensures lie { IfOk result (λ program. AllLie program.rom (items_of program)) }
    ensures zero { IfOk result (λ program. IsZeroElsewhere program.rom (items_of program)) }
    // The symbols are right: they have the names that the lines define, each with the number that its line gives it. No
    // other assignment of numbers to names is right.
    ensures right { IfOk result (λ program. OneIsRight (text_lines source.now) program.symbols) }
    // The program has one entry for each line: of a line that counts the item that its form has under the symbols, at the
    // address where it stands.
    ensures entries { IfOk result (λ program. HasEntriesOf (text_lines source.now) program) }
{
    if has_too_many_lines(source) {
        return Err(LineError::Code(AsmCode::TooManyLines).in_line(MOST_LINES + 1));
    }
    let standing = lay_out(alloc, source)?;
    let lines = fill_in(alloc, source, standing.symbols(), standing.places())?;
    // A law, with nothing to run: the lines' items are apart, so each has its bytes in the ROM.
    apart_items_lie();
    with_rom(alloc, lines, standing.into_symbols())
}

/// The program of these lines and symbols.
fn with_rom(alloc: Global, lines: Vec<Line, Global>, symbols: Symbols) -> Result<Program, AsmError>
    ensures exact { AssemblyGives result (Ok (record {
      lines = lines.items;
      symbols = symbols;
      rom = rom_of (flat_map items_in lines.items);
    })) }
    ensures zero { IfOk result (λ program. IsZeroElsewhere program.rom (items_of program)) }
{
    let rom = rom_of(alloc, &lines)?;
    Ok(Program::new(lines, symbols, rom))
}
