//! The second phase: what each placed line puts into the program.

ghost use Rattle.std.specs.Prelude.{◌≡◌, ◌≤◌, [], ◌∷◌, length, flat_map, All, IfOk, MatchOption};
ghost use Rattle.std.specs.Prelude.{MatchResult, Ok};
ghost use Rattle.std.specs.Result.{result_map_both};
ghost use Rattle.std.specs.Str.Lines.{lines};
ghost use Rattle.pac_asm_line.specs.Contents.{content_of};
ghost use Rattle.pac_asm_line.specs.Views.{seen_statement};
ghost use Rattle.pac_asm_program.specs.Names.{number_of_symbol};
ghost use Rattle.pac_asm_program.specs.Programs.{items_in};
ghost use Rattle.pac_asm_program.specs.Rom as rom;
ghost use Rattle.pac_asm_program.specs.RomLaws as rom_laws;
ghost use Rattle.pac_asm.specs.declared.place.LineLayout.TheVariants.{Placed};
ghost use Rattle.pac_asm.specs.Errors.{LineGives, AssemblyFails};
ghost use Rattle.pac_asm.specs.Items.{AllFit, FitsLine, IsLineOf, IsSized};
ghost use Rattle.pac_asm.specs.Layouts.{ArePlacesApart};
ghost use Rattle.pac_asm.specs.Phase2 as spec;
ghost use Rattle.pac_asm.specs.Programs.{most_lines};

use crate::fault::{AsmCode, AsmError, LineError};
use crate::place::{LineLayout, Span};
use pac_asm_line::{Statement, form};
use pac_asm_program::{Item, Line, Symbols};
use pac_lex::{first_line, tokens};
use std::alloc::Global;

/// What all lines put into the program, at the places that the first phase gave them.
pub(crate) fn fill_in(
    alloc: Global,
    source: &[u8],
    symbols: &Symbols,
    places: &[LineLayout],
) -> Result<Vec<Line, Global>, AsmError>
    requires few { length (lines source.now) ≤ most_lines }
    requires apart { ArePlacesApart [] places.now }
    requires fit { AllFit (lines source.now) places.now }
    ensures exact { MatchResult result
        (λ filled. spec.phase2 symbols.now 1 [] (lines source.now) places.now ≡ Ok filled.items)
        (λ error. AssemblyFails error (spec.phase2 symbols.now 1 []
        (lines source.now) places.now)) }
    ensures items { IfOk result (λ filled. (rom_laws.AreApart (flat_map items_in filled.items))
        × All rom_laws.IsFit (flat_map items_in filled.items)) }
{
    let mut filled = Vec::with_capacity(alloc, places.len())?;
    let mut rest = source;
    let mut left = places;
    let mut number: u32 = 1;
    while let Some((line, below)) = first_line(rest) {
        let Some((place, others)) = first_place(left) else {
            break;
        };
        match line_at(alloc, symbols, line, place) {
            Ok(here) => filled.push(here)?,
            Err(error) => return Err(error.in_line(number)),
        }
        rest = below;
        left = others;
        number += 1;
    }
    Ok(filled)
}

/// The first of some places, and those after it.
fn first_place(places: &[LineLayout]) -> Option<(LineLayout, &[LineLayout])>
    ensures { MatchOption result (places.now ≡ []) (λ found. places.now ≡ found.0 ∷ found.1.now) }
{
    match places {
        [] => None,
        [first, others @ ..] => Some((*first, others)),
    }
}

/// What a line puts into the program, at the place that the first phase gave it.
fn line_at(
    alloc: Global,
    symbols: &Symbols,
    line: &[u8],
    place: LineLayout,
) -> Result<Line, LineError>
    requires { FitsLine line.now place }
    ensures exact { LineGives result (spec.line_at_place symbols.now line.now place) }
    ensures placed { IfOk result (IsLineOf place) }
{
    match place {
        LineLayout::Blank => Ok(Line::Blank),
        LineLayout::Skipped => Ok(Line::Skipped),
        LineLayout::Placed(span) => placed_line(alloc, symbols, line, span),
    }
}

/// A line with its item.
#[tactic(auto, unfolding(crate::specs::Reading::form_of_line))]
fn placed_line(alloc: Global, symbols: &Symbols, line: &[u8], span: Span) -> Result<Line, LineError>
    requires { FitsLine line.now (Placed span) }
    ensures exact { LineGives result (spec.line_at_place symbols.now line.now (Placed span)) }
    ensures placed { IfOk result (IsLineOf (Placed span)) }
{
    let tokens = tokens(alloc, line)?;
    match form(&tokens) {
        None => Err(LineError::Code(AsmCode::Syntax)),
        Some(form) => line_of(alloc, symbols, &form.statement, span),
    }
}

/// A line of this statement, with its item.
fn line_of(
    alloc: Global,
    symbols: &Symbols,
    statement: &Statement<'_, '_>,
    span: Span,
) -> Result<Line, LineError>
    requires { IsSized span.size (seen_statement statement.now) }
    ensures exact { LineGives result (result_map_both (spec.line_of span.at) spec.code_of_fault
        (content_of (number_of_symbol symbols.now) span.at span.size
        (seen_statement statement.now))) }
    ensures placed { IfOk result (IsLineOf (Placed span)) }
{
    match statement.content(alloc, symbols, span.at, span.size)? {
        None => Ok(Line::Blank),
        Some(content) => Ok(Line::Placed(Item::new(span.at, content))),
    }
}
