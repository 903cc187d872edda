//! Names of files: which names in a manifest are those of files of its folder, and how a name is told.

ghost use Rattle.std.specs.Prelude.{◌≡◌, ◌<◌, [], ◌∷◌, ◌++◌, Some, codes};
ghost use Rattle.std.specs.Fmt.{WritesOnOk};
ghost use Rattle.pac_num.specs.Hexadecimal as hexadecimal;
ghost use Rattle.pac_run_files.specs.Names.{begins_below, climbs, is_within_folder, told_character};
ghost use Rattle.pac_run_files.specs.Names.{told_name};

use pac_num::hex_byte;
use std::fmt;

/// Whether one of the parts of a name, which slashes part, is the folder above.
fn climbs(name: &str) -> bool
    ensures { result ≡ climbs name.now }
{
    let mut rest = name;
    'parts: while let Some((part, more)) = rest.split_once('/') {
        if part == ".." {
            return true;
        }
        rest = more;
    }
    rest == ".."
}

/// Whether a name has a byte before its first slash: it isn't empty and begins with none.
pub(crate) fn begins_below(name: &str) -> bool
    ensures { result ≡ begins_below name.now }
{
    !name.is_empty() && !name.starts_with('/')
}

/// Whether a manifest's name is that of a file of its folder, or of a folder below.
pub fn is_within(name: &str) -> bool
    ensures { result ≡ is_within_folder name.now }
{
    begins_below(name) && !climbs(name)
}

/// A file's name, as it is told: a control character as `\x` and two hexadecimal digits.
#[derive(Clone, Copy)]
pub struct Told<'a> {
    /// The name.
    pub name: &'a str,
}

/// Writes a character of one byte.
fn put_byte<W: fmt::Write>(f: &mut fmt::Formatter<W>, byte: u8) -> fmt::Result
    requires { byte < 128 }
    ensures { WritesOnOk W.write_str_gives f.old result (byte ∷ []) f.new }
{
    f.write_char(byte as char)
}

/// Writes the digits of a control character.
#[tactic(auto, unfolding(pac_num::specs::Hexadecimal::hex_byte))]
fn put_digits<W: fmt::Write>(f: &mut fmt::Formatter<W>, character: u8) -> fmt::Result
    ensures { WritesOnOk W.write_str_gives f.old result
        (codes "\\x" ++ hexadecimal.hex_byte character) f.new }
{
    let digits = hex_byte(character);
    f.write_str("\\x")?;
    put_byte(f, digits[0])?;
    put_byte(f, digits[1])
}

/// Writes a character of a name that is told.
fn put_character<W: fmt::Write>(f: &mut fmt::Formatter<W>, character: char) -> fmt::Result
    ensures { WritesOnOk W.write_str_gives f.old result (told_character character) f.new }
{
    if character.is_ascii_control() {
        put_digits(f, character as u32 as u8)
    } else {
        f.write_char(character)
    }
}

/// Writes a name that is told.
fn put_name<W: fmt::Write>(f: &mut fmt::Formatter<W>, name: &str) -> fmt::Result
    ensures { WritesOnOk W.write_str_gives f.old result (told_name name.now) f.new }
{
    for character in name.chars() {
        put_character(f, character)?;
    }
    Ok(())
}

impl fmt::Display for Told<'_> {
    ghost use Rattle.pac_run_files.specs.Names.{told_name};

    ghost output = { λ told. Some (told_name told.name.now) };

    /// The name, with its control characters as digits.
    fn fmt<W: fmt::Write>(&self, f: &mut fmt::Formatter<W>) -> fmt::Result {
        put_name(f, self.name)
    }
}
