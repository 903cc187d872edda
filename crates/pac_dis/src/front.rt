//! The instruction that some bytes begin with.

ghost use Rattle.std.specs.Prelude.{◌≡◌, ◌≤◌, ◌<◌, true, false, IfSome, Some, option_map, length, slice_index};
ghost use Rattle.pac_table.specs.Instructions.{Instruction, IsInstruction, code};
ghost use Rattle.pac_code.specs.Codes.{Begins};
ghost use Rattle.pac_table.specs.PatternsLaws.{longest_code};
ghost use Rattle.pac_dis.specs.Front.{front_instruction, first_four};

use pac_code::decode;
use pac_table::Instr;

/// A byte of some bytes, or 0 where there is none.
fn byte_at(bytes: &[u8], place: usize) -> u8
    ensures { result ≡ slice_index bytes.now place }
{
    bytes.get(place).copied().unwrap_or(0)
}

/// The first four bytes, 0 for each that isn't there.
fn first_four(bytes: &[u8]) -> [u8; 4]
    ensures { result ≡ first_four bytes.now }
{
    [
        byte_at(bytes, 0),
        byte_at(bytes, 1),
        byte_at(bytes, 2),
        byte_at(bytes, 3),
    ]
}

/// Whether there are as many bytes as a code has.
fn has_whole(bytes: &[u8], size: u8) -> bool
    ensures whole { result ≡ true → size ≤ length bytes.now }
    ensures cut { result ≡ false → length bytes.now < size }
{
    usize::from(size) <= bytes.len()
}

/// The instruction whose whole code some bytes begin with, and the count of its bytes.
pub fn front(bytes: &[u8]) -> Option<(Instr, u8)>
    ensures exact { option_map (λ found. found.0) result ≡ front_instruction bytes.now }
    ensures size { IfSome result (λ found. found.1 ≡ length (code found.0)) }
    ensures at_least { IfSome result (λ found. 1 ≤ found.1) }
    ensures at_most { IfSome result (λ found. found.1 ≤ longest_code) }

    // The code found is that of an instruction of the table, and the bytes begin with it; every such instruction is found.
    ensures valid { IfSome result (λ found. IsInstruction found.0) }
    ensures prefix { IfSome result (λ found. Begins (code found.0) bytes.now) }
    ensures inverse { (i : Instruction) → IsInstruction i → Begins (code i) bytes.now →
        result ≡ Some (i, length (code i)) }
{
    let (instr, size) = decode(first_four(bytes))?;
    if has_whole(bytes, size) {
        Some((instr, size))
    } else {
        None
    }
}
