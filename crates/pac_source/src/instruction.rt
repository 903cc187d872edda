//! The text of an instruction in a host's memory.

ghost use Rattle.std.specs.Prelude.{◌≡◌, ◌≤◌, length};
ghost use Rattle.pac_source.specs.Source as calls;

use pac_dis::{Text, disassemble};

/// The text of an instruction, in capitals, with zeros after it: one at least, as C has a text.
#[repr(C)]
#[derive(Drop)]
pub struct PacText {
    /// The text.
    pub bytes: [u8; 17],
}

/// A text with zeros after it.
fn padded(text: &Text) -> [u8; 17]
    ensures { result ≡ calls.padded text.now.bytes }
{
    let mut bytes = [0; 17];
    let text = text.as_bytes();
    bytes[..text.len()].copy_from_slice(text);
    bytes
}

/// Writes the text of what some bytes begin with, and answers how many of them it has.
pub(crate) fn disassemble_into(bytes: &[u8], address: u16, told: &mut PacText) -> u32
    ensures { calls.DisassemblesInto bytes.now address result told.new.bytes }
{
    if bytes.is_empty() {
        told.bytes = [0; 17];
        return 0;
    }
    let (text, size) = disassemble(bytes, address);
    told.bytes = padded(&text);
    u32::from(size)
}
