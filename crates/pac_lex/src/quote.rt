//! Texts of the source, in single quotes.

ghost use Rattle.std.specs.Prelude.{◌≡◌, ◌≤◌, ℕ, List, [], ◌∷◌, length, IfSome, IfOk, Some};
ghost use Rattle.pac_lex.specs.Texts.{quoted_text};
ghost use Rattle.pac_lex.specs.TextsProofs.{closing_length, unquoted_characters, after_character};
ghost use Rattle.pac_lex.specs.TextsProofs.{inside_quotes, characters_of};
ghost use Rattle.pac_lex.specs.TextsProofs.{one_character};

use std::alloc::{AllocError, Allocator};

/// The characters of a text, whose bytes stand here with their quotes: those between the quotes, each
/// doubled quote as one.
pub fn characters<A: Allocator>(alloc: A, text: &[u8]) -> Result<Vec<u8, A>, AllocError>
    ensures each { (characters : List ℕ) → text.now ≡ quoted_text characters →
        IfOk result (λ v. v.items ≡ characters) }
    // The characters, as a function of the bytes.
    ensures exact { IfOk result (λ v. v.items ≡ characters_of text.now) }
{
    unquoted(alloc, inside(text))
}

/// How many characters a text has, whose bytes stand here with their quotes.
pub fn character_count(text: &[u8]) -> usize
    ensures each { (characters : List ℕ) → text.now ≡ quoted_text characters →
        result ≡ length characters }
    // The count, as a function of the bytes.
    ensures exact { result ≡ length (characters_of text.now) }
{
    let mut count = 0;
    let mut rest = inside(text);
    while let [first, after @ ..] = rest {
        count += 1;
        rest = after_character(*first, after);
    }
    count
}

/// The character of a text of one, whose bytes stand here with their quotes.
pub fn one_character(text: &[u8]) -> Option<u8>
    ensures some { IfSome result (λ c. text.now ≡ quoted_text (c ∷ [])) }
    ensures each { (c : ℕ) → text.now ≡ quoted_text (c ∷ []) → result ≡ Some c }
    // The character, as a function of the bytes.
    ensures exact { result ≡ one_character text.now }
{
    match text {
        [b'\'', b'\'', b'\'', b'\''] => Some(b'\''),
        [b'\'', c, b'\''] if *c != b'\'' => Some(*c),
        _ => None,
    }
}

/// What stands between the quotes.
fn inside(text: &[u8]) -> &[u8]
    ensures { result.now ≡ inside_quotes text.now }
{
    match text {
        [_, inside @ .., _] => inside,
        _ => &[],
    }
}

/// Characters with each doubled quote as one.
fn unquoted<A: Allocator>(alloc: A, inside: &[u8]) -> Result<Vec<u8, A>, AllocError>
    ensures { IfOk result (λ v. v.items ≡ unquoted_characters inside.now) }
{
    let mut found = Vec::new(alloc);
    let mut rest = inside;
    while let [first, after @ ..] = rest {
        found.push(*first)?;
        rest = after_character(*first, after);
    }
    Ok(found)
}

/// What follows a character, of which a quote is written twice.
fn after_character(character: u8, after: &[u8]) -> &[u8]
    ensures same { result.now ≡ after_character character after.now }
    ensures shorter { length result.now ≤ length after.now }
{
    match after {
        [b'\'', rest @ ..] if character == b'\'' => rest,
        _ => after,
    }
}

/// After an opening quote: how many bytes there are up to and with the closing one.
pub(crate) fn closing(bytes: &[u8]) -> Option<usize>
    ensures value { result ≡ closing_length bytes.now }
    ensures bound { IfSome result (λ len. len ≤ length bytes.now) }
{
    let mut at = 0;
    while at < bytes.len() {
        if bytes[at] != b'\'' {
            at += 1;
        } else if at + 1 < bytes.len() && bytes[at + 1] == b'\'' {
            at += 2;
        } else {
            return Some(at + 1);
        }
    }
    None
}
