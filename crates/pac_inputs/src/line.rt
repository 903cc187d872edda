//! What a line of a script says by itself.

ghost use Rattle.std.specs.Prelude.{◌≡◌, ◌==◌, ◌<◌, ◌≤◌, [], ◌∷◌, length, option_map, IfSome};
ghost use Rattle.std.specs.Prelude.{IfNone, not};
ghost use Rattle.pac_lex.specs.Tokens.{begins};
ghost use Rattle.pac_lex.specs.Words.{words_of_line};
ghost use Rattle.std.specs.List.{prefix_len, slice_split};
ghost use Rattle.pac_inputs.specs.Inputs.{mask, input_bits};
ghost use Rattle.pac_inputs.specs.Words.{is_comma_byte, is_dash, frame_count, inputs_named};
ghost use Rattle.pac_inputs.specs.Script.{only_inputs, meaning};
ghost use Rattle.bitflags.specs.Sets.{find_name};

use crate::fault::ScriptCode;
use crate::inputs::Inputs;
use bitflags::Flags;
use pac_lex::next_word;

/// The most frames that a script may have (this profile).
pub const FRAME_LIMIT: u32 = 36_000;

/// A line of a script: so many frames, 1 to 36,000, with these inputs held.
#[derive(Clone, Copy, Debug, PartialEq, Eq)]
pub struct Stretch {
    /// How many frames, 1 to 36,000.
    pub frames: u32,
    /// What is held in each of them.
    pub inputs: Inputs,
}

/// What a line, which stands here without its ending, says by itself: nothing, where it has no word or is
/// a comment, or a stretch of frames; or else I2 or I1.
#[tactic(auto, unfolding(crate::specs::Script::meaning))]
pub(crate) fn meaning(line: &[u8]) -> Result<Option<Stretch>, ScriptCode>
    ensures { result ≡ meaning line.now }
{
    let Some((first, after)) = next_word(line) else {
        return Ok(None);
    };
    if is_comment(first) {
        return Ok(None);
    }
    let frames = frame_count(first).ok_or(ScriptCode::Count)?;
    let inputs = only_inputs(after).ok_or(ScriptCode::Names)?;
    Ok(Some(Stretch { frames, inputs }))
}

/// The inputs of what follows the count, which has to be one word.
fn only_inputs(after: &[u8]) -> Option<Inputs>
    ensures { option_map mask result ≡ only_inputs (words_of_line after.now) }
{
    let (word, rest) = next_word(after)?;
    if next_word(rest).is_some() {
        return None;
    }
    inputs_named(word)
}

/// Whether the word begins with `#`.
fn is_comment(word: &[u8]) -> bool
    ensures { result ≡ begins (λ b. b == 35) word.now }
{
    matches!(word, [b'#', ..])
}

/// The count that a word tells, 1 to 36,000.
fn frame_count(word: &[u8]) -> Option<u32>
    ensures { result ≡ frame_count word.now }
{
    let mut value: u32 = 0;
    for byte in word {
        if !byte.is_ascii_digit() {
            return None;
        }
        value = value * 10 + u32::from(*byte - b'0');
        if value > FRAME_LIMIT {
            return None;
        }
    }
    if value == 0 {
        return None;
    }
    Some(value)
}

/// The inputs that a word tells: none for `-`, and else those of the names between its commas.
fn inputs_named(word: &[u8]) -> Option<Inputs>
    ensures { option_map mask result ≡ inputs_named word.now }
{
    let mut held = Inputs::empty();
    if is_dash(word) {
        return Some(held);
    }
    let mut rest = Some(word);
    while let Some(names) = rest {
        let (name, after) = first_name(names);
        held.insert(input_named(name)?);
        rest = after;
    }
    Some(held)
}

/// Whether the word is `-`.
fn is_dash(word: &[u8]) -> bool
    ensures { result ≡ is_dash word.now }
{
    matches!(word, [b'-'])
}

/// The first name, and what follows its comma, if it has one.
#[tactic(auto, using(crate::proofs::NameLemmas::all_parts))]
fn first_name(names: &[u8]) -> (&[u8], Option<&[u8]>)
    ensures last { IfNone result.1 (slice_split is_comma_byte names.now ≡ result.0.now ∷ []) }
    ensures more { IfSome result.1 (λ after. slice_split is_comma_byte names.now
        ≡ result.0.now ∷ slice_split is_comma_byte after.now) }
    ensures shorter { IfSome result.1 (λ after. length after.now < length names.now) }
{
    let (name, rest) = names.split_at(name_len(names));
    match rest {
        [] => (name, None),
        [_, after @ ..] => (name, Some(after)),
    }
}

/// The count of bytes before the first comma.
fn name_len(bytes: &[u8]) -> usize
    ensures value { result ≡ prefix_len (λ b. not (is_comma_byte b)) bytes.now }
    ensures bound { result ≤ length bytes.now }
{
    bytes.iter().take_while(|b| **b != b',').count()
}

/// The input of a name, if it is one.
#[tactic(auto, using(crate::proofs::NameLemmas::unread_names))]
fn input_named(name: &[u8]) -> Option<Inputs>
    ensures { option_map mask result ≡ find_name input_bits name.now }
{
    let text = std::str::from_utf8(name).ok()?;
    Inputs::from_name(text)
}
