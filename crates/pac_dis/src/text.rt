//! The text of one instruction.

ghost use Rattle.std.specs.Prelude.{◌≡◌, ◌<◌, ◌++◌, ◌∷◌, []};
ghost use Rattle.arrayvec.specs.ArrayString.{array_string_len};
ghost use Rattle.pac_dis.specs.TextsLaws.{longest_text};

use arrayvec::ArrayString;

/// The text of an instruction. The longest, as `LD (IX+05H),0FFH`, has 16 bytes.
pub type Text = ArrayString<16>;

/// Appends one ASCII character.
pub fn put_character(text: &mut Text, character: u8)
    requires ascii { character < 128 }
    requires room { array_string_len text.old < longest_text }
    ensures { text.new.bytes ≡ text.old.bytes ++ character ∷ [] }
{
    text.push(char::from(character));
}
