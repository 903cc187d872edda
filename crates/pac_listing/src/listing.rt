//! The listing.

ghost use Rattle.std.specs.Prelude.{◌≡◌};
ghost use Rattle.std.specs.Str.Lines.{lines as text_lines};
ghost use Rattle.pac_out.specs.CountedProofs.{Puts};
ghost use Rattle.pac_out.specs.Pending.{Gathers};
ghost use Rattle.pac_listing.specs.Listing.{lines_from, symbol_row, symbol_rows, listing};

use crate::rows::put_line;
use itoa::Buffer;
use pac_asm_program::{Line, Program, Symbols};
use pac_lex::first_line;
use pac_out::counted::Counted;
use pac_out::pending::Pending;
use pac_out::{Out, WriteFault};

/// The rows of the lines.
fn put_lines<W: Out>(
    pending: &mut Pending,
    file: &mut Counted<W>,
    lines: &[Line],
    source: &[u8],
) -> Result<(), WriteFault>
    ensures { Gathers W.took W.refused pending.old file.old
        (lines_from 1 lines.now (text_lines source.now)) result pending.new file.new }
{
    let mut rest = source;
    let mut lines_left = lines;
    let mut number: u64 = 1;
    while let Some((line, later)) = lines_left.split_first() {
        let Some((text, after)) = first_line(rest) else {
            return Ok(());
        };
        put_line(pending, file, number, line, text)?;
        rest = after;
        lines_left = later;
        number += 1;
    }
    Ok(())
}

/// The row of a symbol.
#[tactic(auto, unfolding(crate::specs::Listing::symbol_row))]
fn put_symbol<W: Out>(
    pending: &mut Pending,
    file: &mut Counted<W>,
    name: &[u8],
    number: i32,
) -> Result<(), WriteFault>
    ensures { Gathers W.took W.refused pending.old file.old (symbol_row (name.now, number)) result
        pending.new file.new }
{
    let mut digits = Buffer::new();
    let pieces: [&[u8]; 4] = [name, b" ", digits.format(number).as_bytes(), b"\n"];
    pending.put_pieces(file, &pieces)
}

/// The word SYMBOLS, and the rows of the symbols.
fn put_symbols<W: Out>(
    pending: &mut Pending,
    file: &mut Counted<W>,
    symbols: &Symbols,
) -> Result<(), WriteFault>
    ensures { Gathers W.took W.refused pending.old file.old (symbol_rows symbols.now) result
        pending.new file.new }
{
    pending.put(file, b"SYMBOLS\n")?;
    for place in 0..symbols.len() {
        let Some((name, number)) = symbols.get(place) else {
            return Ok(());
        };
        put_symbol(pending, file, name, number)?;
    }
    Ok(())
}

/// Gathers the listing.
#[tactic(auto, unfolding(crate::specs::Listing::listing))]
fn put_listing<W: Out>(
    pending: &mut Pending,
    file: &mut Counted<W>,
    program: &Program,
    source: &[u8],
) -> Result<(), WriteFault>
    ensures { Gathers W.took W.refused pending.old file.old (listing program.now source.now) result
        pending.new file.new }
{
    put_lines(pending, file, program.lines(), source)?;
    put_symbols(pending, file, program.symbols())
}

/// Writes the listing of the program that a source became, in large writes; it takes no memory. The fault has the count
/// of all bytes that the file took.
pub fn write_listing<W: Out>(
    file: &mut Counted<W>,
    program: &Program,
    source: &[u8],
) -> Result<(), WriteFault>
    ensures { Puts W.took W.refused file.old (listing program.now source.now) result file.new }
{
    let mut pending = Pending::new();
    put_listing(&mut pending, file, program, source)?;
    pending.flush(file)
}
