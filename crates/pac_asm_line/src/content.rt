//! What a statement places.

ghost use Rattle.std.specs.Prelude.{◌≡◌, IfOk, IfSome, Ok, Some, length, option_map, replicate};
ghost use Rattle.std.specs.Result.{result_map_both};
ghost use Rattle.pac_lex.specs.TextsProofs.{characters_of};
ghost use Rattle.pac_lex.specs.TokensProofs.{views};
ghost use Rattle.pac_code.specs.Items.{Code, Data, IsValid, bytes_in};
ghost use Rattle.pac_asm_line.specs.declared.gathered.ContentError.TheVariants as errors;
ghost use Rattle.pac_asm_line.specs.Contents.{content_of, fill_value, gathered_bytes, joined_bytes};
ghost use Rattle.pac_asm_line.specs.Contents.{map_unless_fault, part_bytes};
ghost use Rattle.pac_asm_line.specs.Contents.{word_bytes};
ghost use Rattle.pac_asm_line.specs.ContentsProofs.{SizeFits};
ghost use Rattle.pac_asm_line.specs.Gathered.{ContentGives, gathered_so_far};
ghost use Rattle.pac_asm_line.specs.Views.{part_of_tokens, parts_of_operands, seen_statement};
ghost use Rattle.pac_asm_line.specs.Views.{expression_tree, trees_of};

use crate::expression::Expression;
use crate::gathered::{ContentError, Gathered};
use crate::numbers::{byte_value, word_value};
use crate::operands::{OperandList, all, bytes_size, text_in, words_size};
use crate::statement::Statement;
use pac_asm_operation::{OperationFault, next_part};
use pac_asm_program::Content;
use pac_expr::SymbolLookup;
use pac_lex::{Token, characters};
use pac_table::Instr;
use std::alloc::{AllocError, Global};

impl<'t, 'a> Statement<'t, 'a> {
    /// What the statement places, if it places something, where `here` is the address of the line and `size`
    /// how many bytes a space has.
    #[tactic(auto, unfolding(crate::specs::Contents::content_of))]
    pub fn content<S: SymbolLookup>(
        &self,
        alloc: Global,
        symbols: &S,
        here: u16,
        size: u16,
    ) -> Result<Option<Content>, ContentError>
        ensures exact { ContentGives (λ found. found) result
            (content_of (S.lookup symbols.now) here size (seen_statement self.now)) }
        // What is placed has as many bytes as the form says, or the space has, and an instruction is one of the table.
        ensures sized { SizeFits size (seen_statement self.now) →
            IfOk result (λ found. IfSome found
            (λ content. IsValid content × (length (bytes_in content) ≡ size))) }
    {
        match self {
            Statement::Bytes(operands) => placed(bytes_of(alloc, *operands, symbols, here)),
            Statement::Text(written) => placed(text_of(alloc, written)),
            Statement::Words(operands) => placed(words_of(alloc, *operands, symbols, here)),
            Statement::Space(_, fill) => placed(space_of(alloc, fill, symbols, here, size)),
            Statement::Operation(operation) => coded(operation.instruction(symbols, here)),
            _ => Ok(None),
        }
    }
}

/// Bytes as what is placed, unless there are none to place.
fn placed(bytes: Result<Vec<u8, Global>, ContentError>) -> Result<Option<Content>, ContentError>
    ensures { result ≡ result_map_both (λ v. Some (Data v.items)) (λ error. error) bytes }
{
    Ok(Some(Content::data(bytes?)))
}

/// An instruction as what is placed, unless there is none.
fn coded(instr: Result<Instr, OperationFault>) -> Result<Option<Content>, ContentError>
    ensures { result ≡ result_map_both (λ i. Some (Code i)) errors.Fault instr }
{
    Ok(Some(Content::code(instr?)))
}

/// The characters of a text, whose bytes stand here with their quotes.
fn text_of(alloc: Global, written: &[u8]) -> Result<Vec<u8, Global>, ContentError>
    ensures { ContentGives (λ v. v.items) result (Ok (characters_of written.now)) }
{
    Ok(characters(alloc, written)?)
}

/// The bytes of a DEFB.
fn bytes_of<S: SymbolLookup>(
    alloc: Global,
    operands: OperandList<'_, '_>,
    symbols: &S,
    here: u16,
) -> Result<Vec<u8, Global>, ContentError>
    ensures { ContentGives (λ v. v.items) result
        (gathered_bytes (part_bytes (S.lookup symbols.now) here)
        (parts_of_operands operands.entry)) }
{
    let mut found = Gathered::new(alloc, usize::from(bytes_size(operands)))?;
    let mut rest = all(operands);
    while let Some(tokens) = rest {
        let (part, after) = next_part(tokens);
        put_part(&mut found, alloc, part, symbols, here)?;
        rest = after;
    }
    found.finish()
}

/// Adds an operand of a DEFB.
fn put_part<S: SymbolLookup>(
    found: &mut Gathered,
    alloc: Global,
    tokens: &[Token<'_>],
    symbols: &S,
    here: u16,
) -> Result<(), AllocError>
    ensures { IfOk result
        (λ _. gathered_so_far found.new
        ≡ joined_bytes (gathered_so_far found.old)
        (part_bytes (S.lookup symbols.now) here (part_of_tokens (views tokens.now)))) }
{
    match text_in(tokens) {
        Some(written) => found.put_text(alloc, written),
        None => found.put_byte(byte_value(&Expression { tokens }, symbols, here)),
    }
}

/// The bytes of a DEFW.
fn words_of<S: SymbolLookup>(
    alloc: Global,
    operands: OperandList<'_, '_>,
    symbols: &S,
    here: u16,
) -> Result<Vec<u8, Global>, ContentError>
    ensures { ContentGives (λ v. v.items) result
        (gathered_bytes (word_bytes (S.lookup symbols.now) here) (trees_of operands.entry)) }
{
    let mut found = Gathered::new(alloc, usize::from(words_size(operands)))?;
    let mut rest = all(operands);
    while let Some(tokens) = rest {
        let (tokens, after) = next_part(tokens);
        found.put_word(word_value(&Expression { tokens }, symbols, here))?;
        rest = after;
    }
    found.finish()
}

/// The bytes of a space.
fn space_of<S: SymbolLookup>(
    alloc: Global,
    fill: &Option<Expression<'_, '_>>,
    symbols: &S,
    here: u16,
    size: u16,
) -> Result<Vec<u8, Global>, ContentError>
    ensures { ContentGives (λ v. v.items) result
        (map_unless_fault (replicate size) (fill_value (S.lookup symbols.now) here
        (option_map expression_tree fill.now))) }
{
    let byte = fill_value(fill, symbols, here)?;
    Ok(vec![in alloc; byte; usize::from(size)]?)
}

/// The byte that a space is filled with.
fn fill_value<S: SymbolLookup>(
    fill: &Option<Expression<'_, '_>>,
    symbols: &S,
    here: u16,
) -> Result<u8, OperationFault>
    ensures { result ≡ fill_value (S.lookup symbols.now) here
        (option_map expression_tree fill.now) }
{
    match fill {
        None => Ok(0),
        Some(expression) => byte_value(expression, symbols, here),
    }
}
