//! The bytes of a line, and the longest runs of them.

ghost use Rattle.std.specs.Prelude.{◌≡◌, ◌≤◌, length};
ghost use Rattle.std.specs.List.{prefix_len};
ghost use Rattle.pac_lex.specs.Bytes.{is_blank, is_name_start, is_name_byte, is_printable};
ghost use Rattle.pac_lex.specs.Bytes.{after_gap};

/// Whether a byte is a tab or a space.
pub(crate) fn is_blank(byte: u8) -> bool
    ensures { result ≡ is_blank byte }
{
    byte == b'\t' || byte == b' '
}

/// Whether a name can begin with a byte: a letter or `_`.
pub(crate) fn is_name_start(byte: u8) -> bool
    ensures { result ≡ is_name_start byte }
{
    byte.is_ascii_alphabetic() || byte == b'_'
}

/// Whether a name can go on with a byte: a letter, a digit or `_`.
fn is_name_byte(byte: u8) -> bool
    ensures { result ≡ is_name_byte byte }
{
    byte.is_ascii_alphanumeric() || byte == b'_'
}

/// Whether a byte may stand in a text: a tab, or one from 20H to 7EH.
pub(crate) fn is_printable(byte: u8) -> bool
    ensures { result ≡ is_printable byte }
{
    byte == b'\t' || matches!(byte, 0x20..=0x7E)
}

/// What follows the first blanks of a line.
pub(crate) fn after_gap(line: &[u8]) -> &[u8]
    ensures rest { result.now ≡ after_gap line.now }
    ensures bound { length result.now ≤ length line.now }
{
    let (_, rest) = line.split_at(gap_len(line));
    rest
}

/// The count of blanks that a line begins with.
fn gap_len(line: &[u8]) -> usize
    ensures value { result ≡ prefix_len is_blank line.now }
    ensures bound { result ≤ length line.now }
{
    line.iter().take_while(|b| is_blank(**b)).count()
}

/// The count of letters, digits and `_` that the bytes begin with.
pub(crate) fn name_len(bytes: &[u8]) -> usize
    ensures value { result ≡ prefix_len is_name_byte bytes.now }
    ensures bound { result ≤ length bytes.now }
{
    bytes.iter().take_while(|b| is_name_byte(**b)).count()
}
