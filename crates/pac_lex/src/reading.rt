//! A line read token by token.

ghost use Rattle.std.specs.Prelude.{◌≡◌, ◌+◌, ◌<◌, ◌≤◌, [], length, IfOk, IfSome, IsTrue};
ghost use Rattle.std.specs.Prelude.{MatchResult, MatchOption, List, IfErr};
ghost use Rattle.std.specs.List.{prefix_len, list_all};
ghost use Rattle.std.specs.Char.{is_ascii_digit, is_ascii_alphanumeric};
ghost use Rattle.pac_lex.specs.Bytes.{is_quote, is_name_start, is_printable};
ghost use Rattle.pac_lex.specs.Tokens.{Lexeme, IsRead, HasLexFault, one_byte_kind, is_af, begins};
ghost use Rattle.pac_lex.specs.TokensProofs.{view, views};
ghost use Rattle.pac_lex.specs.Scan.{LexingGives, OnLexFault, is_end, token_before, name_token_at};
ghost use Rattle.pac_lex.specs.Scan.{number_token_at, text_token_at, token_at, scan, tokens_of};

use crate::bytes::{after_gap, is_name_start, is_printable, name_len};
use crate::fault::{LexError, LexFault};
use crate::number::numeral;
use crate::quote::closing;
use crate::token::{Token, TokenKind};
use std::alloc::Allocator;

/// The most bytes that a source line may have, its ending not counted (this profile).
pub const LINE_LIMIT: usize = 255;

/// Room for the tokens of most lines, taken at once.
const USUAL_TOKENS: usize = 16;

/// The tokens of a line, which stands here without its ending. Blanks and a comment after `;` are
/// none. Where the line has a fault, the answer is L4, or else the leftmost of L1 to L3.
pub fn tokens<A: Allocator>(alloc: A, line: &[u8]) -> Result<Vec<Token<'_>, A>, LexError>
    // What is read is so: the line is these tokens, each in its own bytes, with blanks between them.
    ensures read { IfOk result (λ v. IsRead line.now (views v.items)) }
    // What is so is read, unless memory runs out.
    ensures only { (tokens : List Lexeme) → IsRead line.now tokens →
        LexingGives (λ v. views v.items) result (Ok tokens) }
    // The fault told is the line's, and the line's is told.
    ensures fault { IfErr result (λ e. OnLexFault e (HasLexFault line.now)) }
    ensures refused { (fault : LexFault) → HasLexFault line.now fault →
        LexingGives (λ v. views v.items) result (Err fault) }
    // Which tokens and which fault, as a function of the line.
    ensures exact { LexingGives (λ v. views v.items) result (tokens_of line.now) }
{
    checked(alloc, line)
}

/// What `tokens` answers, by its exact clause alone, from which the others are proved.
#[tactic(auto, unfolding(crate::specs::Scan::tokens_of))]
fn checked<A: Allocator>(alloc: A, line: &[u8]) -> Result<Vec<Token<'_>, A>, LexError>
    ensures { LexingGives (λ v. views v.items) result (tokens_of line.now) }
{
    if line.len() > LINE_LIMIT {
        return Err(LexError::Fault(LexFault::LongLine));
    }
    read(alloc, line)
}

/// The tokens of a line of any length.
fn read<A: Allocator>(alloc: A, line: &[u8]) -> Result<Vec<Token<'_>, A>, LexError>
    ensures { LexingGives (λ v. views v.items) result (scan 0 line.now) }
{
    let mut found = Vec::with_capacity(alloc, USUAL_TOKENS)?;
    let mut rest = line;
    while let Some((token, after)) = next_token(rest)? {
        found.push(token)?;
        rest = after;
    }
    Ok(found)
}

/// The next token and what follows it; `None` where no more than blanks and a comment are left.
fn next_token(line: &[u8]) -> Result<Option<(Token<'_>, &[u8])>, LexFault>
    ensures next { MatchResult result
        (λ found. MatchOption found (scan 0 line.now ≡ Ok [])
        (λ x. scan 0 line.now ≡ token_before (view x.0) (scan 0 x.1.now)))
        (λ fault. scan 0 line.now ≡ Err fault) }
    ensures shorter { IfOk result (λ found. IfSome found (λ x. length x.1.now < length line.now)) }
{
    let rest = after_gap(line);
    if is_end(rest) {
        return Ok(None);
    }
    match token_at(rest) {
        Err(fault) => Err(fault),
        Ok((kind, len)) => {
            let (text, after) = rest.split_at(len);
            Ok(Some((Token { kind, text }, after)))
        }
    }
}

/// Whether nothing or a comment is left.
fn is_end(rest: &[u8]) -> bool
    ensures { result ≡ is_end rest.now }
{
    matches!(rest, [] | [b';', ..])
}

/// The kind and the length of the token that the bytes begin with.
#[tactic(auto, unfolding(crate::specs::Scan::token_at))]
fn token_at(bytes: &[u8]) -> Result<(TokenKind, usize), LexFault>
    ensures value { result ≡ token_at bytes.now }
    ensures bound { IfOk result (λ found. (0 < found.1) × (found.1 ≤ length bytes.now)) }
{
    match bytes {
        [] => Err(LexFault::NoToken),
        [first, after @ ..] => {
            if is_name_start(*first) {
                Ok(name_at(bytes))
            } else if first.is_ascii_digit() {
                number_at(bytes)
            } else if *first == b'\'' {
                text_at(after)
            } else {
                match symbol(*first) {
                    None => Err(LexFault::NoToken),
                    Some(kind) => Ok((kind, 1)),
                }
            }
        }
    }
}

/// A name, or AF' where the name is AF and a quote follows at once.
#[tactic(auto, using(crate::proofs::NameLemmas::tokens_have_bytes), unfolding(crate::specs::Scan::name_token_at))]
fn name_at(bytes: &[u8]) -> (TokenKind, usize)
    ensures value { result ≡ name_token_at bytes.now }
    ensures bound { result.1 ≤ length bytes.now }
    ensures some { IsTrue (begins is_name_start bytes.now) → 0 < result.1 }
{
    let len = name_len(bytes);
    let (name, after) = bytes.split_at(len);
    if is_af(name) && begins_with_quote(after) {
        (TokenKind::AlternateAf, len + 1)
    } else {
        (TokenKind::Name, len)
    }
}

/// Whether a name is AF, in either case.
fn is_af(name: &[u8]) -> bool
    ensures { result ≡ is_af name.now }
{
    matches!(name, [b'A' | b'a', b'F' | b'f'])
}

/// Whether the first byte is a quote.
fn begins_with_quote(bytes: &[u8]) -> bool
    ensures { result ≡ begins is_quote bytes.now }
{
    matches!(bytes, [b'\'', ..])
}

/// A number: its value and its length.
#[tactic(auto, using(crate::proofs::NameLemmas::tokens_have_bytes), unfolding(crate::specs::Scan::number_token_at))]
fn number_at(bytes: &[u8]) -> Result<(TokenKind, usize), LexFault>
    ensures value { result ≡ number_token_at bytes.now }
    ensures bound { IfOk result (λ found. found.1 ≤ length bytes.now) }
    ensures some { IsTrue (begins is_ascii_digit bytes.now) → IfOk result (λ found. 0 < found.1) }
{
    let len = run_len(bytes);
    let (run, _) = bytes.split_at(len);
    match numeral(run) {
        None => Err(LexFault::WrongNumber),
        Some(value) => Ok((TokenKind::Number(value), len)),
    }
}

/// The count of letters and digits that the bytes begin with.
fn run_len(bytes: &[u8]) -> usize
    ensures value { result ≡ prefix_len is_ascii_alphanumeric bytes.now }
    ensures bound { result ≤ length bytes.now }
{
    bytes
        .iter()
        .take_while(|b| b.is_ascii_alphanumeric())
        .count()
}

/// A text, from the byte after its opening quote on.
#[tactic(auto, unfolding(crate::specs::Scan::text_token_at))]
fn text_at(after: &[u8]) -> Result<(TokenKind, usize), LexFault>
    ensures value { result ≡ text_token_at after.now }
    ensures bound { IfOk result (λ found. (0 < found.1) × (found.1 ≤ length after.now + 1)) }
{
    let Some(len) = closing(after) else {
        return Err(LexFault::OpenText);
    };
    let (text, _) = after.split_at(len);
    if are_printable(text) {
        Ok((TokenKind::Text, len + 1))
    } else {
        Err(LexFault::NoToken)
    }
}

/// Whether all these bytes may stand in a text.
fn are_printable(text: &[u8]) -> bool
    ensures { result ≡ list_all is_printable text.now }
{
    text.iter().all(|b| is_printable(*b))
}

/// The token that a byte is by itself, if it is one.
fn symbol(byte: u8) -> Option<TokenKind>
    ensures { result ≡ one_byte_kind byte }
{
    match byte {
        b'$' => Some(TokenKind::Dollar),
        b':' => Some(TokenKind::Colon),
        b',' => Some(TokenKind::Comma),
        b'(' => Some(TokenKind::Open),
        b')' => Some(TokenKind::Close),
        b'+' => Some(TokenKind::Plus),
        b'-' => Some(TokenKind::Minus),
        b'*' => Some(TokenKind::Star),
        b'/' => Some(TokenKind::Slash),
        _ => None,
    }
}
