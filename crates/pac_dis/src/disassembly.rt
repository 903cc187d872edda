//! The text of what some bytes begin with.

ghost use Rattle.std.specs.Prelude.{◌≡◌, ◌≤◌, ◌<◌, ◌+◌, ◌++◌, length};
ghost use Rattle.arrayvec.specs.ArrayString.{array_string_len};
ghost use Rattle.pac_table.specs.Instructions.{IsInstruction};
ghost use Rattle.pac_table.specs.PatternsLaws.{longest_code};
ghost use Rattle.pac_dis.specs.Texts as spec;
ghost use Rattle.pac_dis.specs.TextsProofs.{Disassembles};
ghost use Rattle.pac_dis.specs.TextsLaws.{longest_text};

use crate::front::front;
use crate::numerals::put_byte;
use crate::operands::put_operands;
use crate::text::Text;
use pac_table::Instr;
use pac_table_names::operation_name;

/// Appends the name of an instruction's operation.
fn put_operation(text: &mut Text, instr: &Instr)
    requires { array_string_len text.old + length (spec.operation_text instr.now) ≤ longest_text }
    ensures { text.new.bytes ≡ text.old.bytes ++ spec.operation_text instr.now }
{
    if let Some(name) = operation_name(instr.operands().mnemonic, instr.p()) {
        text.push_str(name);
    }
}

/// The text of an instruction whose code stands at an address.
#[tactic(auto, unfolding(crate::specs::Texts::instruction_text))]
fn instruction_text(at: u16, instr: &Instr) -> Text
    requires { IsInstruction instr.now }
    ensures text { result.bytes ≡ spec.instruction_text at instr.now }
    ensures shown { 0 < array_string_len result }
{
    let mut text = Text::new();
    put_operation(&mut text, instr);
    put_operands(&mut text, at, instr);
    text
}

/// The text of a byte that begins no instruction.
#[tactic(auto, unfolding(crate::specs::Texts::data_text))]
fn data_text(byte: u8) -> Text
    ensures text { result.bytes ≡ spec.data_text byte }
    ensures shown { 0 < array_string_len result }
{
    let mut text = Text::new();
    text.push_str("DEFB ");
    put_byte(&mut text, byte);
    text
}

/// The text of what some bytes begin with, the first of them at an address, and how many of them it has: the instruction
/// whose whole code is their prefix, one to four bytes; where there is none, as at an undocumented opcode and at a code
/// that is cut short, the first byte alone as `DEFB`.
pub fn disassemble(bytes: &[u8], at: u16) -> (Text, u8)
    requires { 0 < length bytes.now }
    ensures text { result.0.bytes ≡ spec.text_at at bytes.now }
    ensures size { result.1 ≡ spec.size_at bytes.now }
    ensures meaning { Disassembles at bytes.now result.0.bytes result.1 }
    ensures shown { 0 < array_string_len result.0 }
    ensures within { result.1 ≤ length bytes.now }
    ensures at_least { 1 ≤ result.1 }
    ensures at_most { result.1 ≤ longest_code }
{
    match front(bytes) {
        Some((instr, size)) => (instruction_text(at, &instr), size),
        None => (data_text(bytes[0]), 1),
    }
}
