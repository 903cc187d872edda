//! The first phase: each line of a source once, from the first on.

ghost use Rattle.std.specs.Prelude.{◌≡◌, ◌≤◌, false, length, OnOk};
ghost use Rattle.std.specs.Str.Lines.{lines};
ghost use Rattle.pac_asm.specs.Errors.{AssemblyGives, AssemblyBecomes};
ghost use Rattle.pac_asm.specs.Pairing.{is_found_line};
ghost use Rattle.pac_asm.specs.Phase1.{after_text, unless_left_open, phase1};
ghost use Rattle.pac_asm.specs.Programs.{most_lines};
ghost use Rattle.pac_asm.specs.Results.{result_of_line};
ghost use Rattle.pac_asm.specs.Standings.{first_standing};

use crate::fault::{AsmCode, AsmError, LineError};
use crate::lines::first_unclosed;
use crate::standing::Standing;
use pac_lex::first_line;
use std::alloc::Global;

/// What all lines of a source leave, or its first fault of the first phase.
pub(crate) fn lay_out(alloc: Global, source: &[u8]) -> Result<Standing, AsmError>
    requires { length (lines source.now) ≤ most_lines }
    ensures { AssemblyGives result (phase1 1 first_standing (lines source.now)) }
{
    let mut standing = Standing::start(alloc, source)?;
    take_lines(&mut standing, alloc, source)?;
    Ok(standing)
}

/// Takes all lines of a source.
fn take_lines(standing: &mut Standing, alloc: Global, source: &[u8]) -> Result<(), AsmError>
    requires { length (lines source.now) ≤ most_lines }
    ensures { AssemblyBecomes result (phase1 1 standing.old (lines source.now)) standing.new }
{
    let unclosed = first_unclosed(source);
    let mut rest = source;
    let mut above: u32 = 0;
    while let Some((line, below)) = first_line(rest) {
        take_line(standing, alloc, line, above + 1, is_at(unclosed, above))?;
        rest = below;
        above += 1;
    }
    Ok(())
}

/// Whether the line with so many lines above it is the one that was found.
fn is_at(found: Option<u32>, above: u32) -> bool
    ensures { result ≡ is_found_line found above }
{
    match found {
        None => false,
        Some(found) => found == above,
    }
}

/// Takes the line of this number, which may be an IF that is never closed.
fn take_line(
    standing: &mut Standing,
    alloc: Global,
    line: &[u8],
    number: u32,
    is_open: bool,
) -> Result<(), AsmError>
    ensures exact { AssemblyBecomes result (result_of_line number
        (unless_left_open is_open (after_text standing.old line.now)))
        standing.new }
    ensures closed { OnOk result (is_open ≡ false) }
{
    match standing.after_text(alloc, line) {
        Err(error) => Err(error.in_line(number)),
        Ok(()) => {
            if is_open {
                Err(LineError::Code(AsmCode::NeverClosed).in_line(number))
            } else {
                Ok(())
            }
        }
    }
}
