//! The words of a line.

ghost use Rattle.std.specs.Prelude.{◌≡◌, ◌<◌, ◌≤◌, [], ◌∷◌, length, slice_get, IfSome, IfNone, not};
ghost use Rattle.std.specs.Prelude.{option_map};
ghost use Rattle.std.specs.List.{prefix_len};
ghost use Rattle.pac_lex.specs.Bytes.{is_blank, after_gap};
ghost use Rattle.pac_lex.specs.Words.{words_of_line, first_word};
ghost use Rattle.pac_lex.specs.WordsProofs.{next_word};

use crate::bytes::{after_gap, is_blank, name_len};

/// The next word of a line and what follows it, or `None` where no word is left. Words are parted by
/// blanks and tabs: input scripts and debugger commands are read so.
#[tactic(auto, using(crate::proofs::WordLemmas::next_words))]
pub fn next_word(line: &[u8]) -> Option<(&[u8], &[u8])>
    ensures none { IfNone result (words_of_line line.now ≡ []) }
    ensures some { IfSome result (λ found. words_of_line line.now
        ≡ found.0.now ∷ words_of_line found.1.now) }
    ensures shorter { IfSome result (λ found. length found.1.now < length line.now) }
    // Which bytes, as a function of the line.
    ensures exact { option_map (λ found. (found.0.now, found.1.now)) result ≡ next_word line.now }
{
    let rest = after_gap(line);
    if rest.is_empty() {
        return None;
    }
    Some(rest.split_at(word_len(rest)))
}

/// The first byte of a line after its blanks and tabs, if there is one.
#[inline]
pub fn first_byte(line: &[u8]) -> Option<u8>
    ensures { result ≡ slice_get (after_gap line.now) 0 }
{
    after_gap(line).first().copied()
}

/// The word that a source line begins with: after blanks and tabs, the longest run of letters, digits and
/// `_`. It is empty where another byte comes first.
pub fn first_word(line: &[u8]) -> &[u8]
    ensures { result.now ≡ first_word line.now }
{
    let rest = after_gap(line);
    let (word, _) = rest.split_at(name_len(rest));
    word
}

/// The count of bytes before the first blank.
fn word_len(bytes: &[u8]) -> usize
    ensures value { result ≡ prefix_len (λ b. not (is_blank b)) bytes.now }
    ensures bound { result ≤ length bytes.now }
{
    bytes.iter().take_while(|b| !is_blank(**b)).count()
}
