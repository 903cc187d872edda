//! The lines of a disassembly.

ghost use Rattle.std.specs.Prelude.{◌≡◌, ◌<◌, ◌≤◌, length, take, IfOk};
ghost use Rattle.pac_out.specs.CountedProofs.{Puts};
ghost use Rattle.pac_out.specs.Pending.{Gathers};
ghost use Rattle.pac_dis.specs.Texts.{size_at};
ghost use Rattle.pac_dis.specs.Lines.{line_text, disassembly};

use crate::disassembly::disassemble;
use pac_num::{byte_columns, hex_word, offset};
use pac_out::counted::Counted;
use pac_out::pending::Pending;
use pac_out::{Out, WriteFault};

/// The first so many of some bytes.
fn code_of(bytes: &[u8], size: u8) -> &[u8]
    requires { size ≤ length bytes.now }
    ensures { result.now ≡ take size bytes.now }
{
    let (code, _) = bytes.split_at(usize::from(size));
    code
}

/// Gathers the line of what some bytes begin with, the first of them at an address, as
/// `0002 324040   LD (4040H),A`, and tells how many of the bytes it shows.
#[tactic(auto, unfolding(crate::specs::Lines::line_text))]
pub fn put_line<W: Out>(
    pending: &mut Pending,
    file: &mut Counted<W>,
    at: u16,
    bytes: &[u8],
) -> Result<u8, WriteFault>
    requires { 0 < length bytes.now }
    ensures line { Gathers W.took W.refused pending.old file.old (line_text at bytes.now)
        result pending.new file.new }
    ensures size { IfOk result (λ size. size ≡ size_at bytes.now) }
    ensures at_least { IfOk result (λ size. 1 ≤ size) }
    ensures within { IfOk result (λ size. size ≤ length bytes.now) }
{
    let (text, size) = disassemble(bytes, at);
    let pieces: [&[u8]; 6] = [
        &hex_word(at),
        b" ",
        &byte_columns(code_of(bytes, size)),
        b" ",
        text.as_bytes(),
        b"\n",
    ];
    pending.put_pieces(file, &pieces)?;
    Ok(size)
}

/// Gathers the lines of all bytes, the first of them at address 0.
fn put_lines<W: Out>(
    pending: &mut Pending,
    file: &mut Counted<W>,
    bytes: &[u8],
) -> Result<(), WriteFault>
    ensures { Gathers W.took W.refused pending.old file.old (disassembly bytes.now)
        result pending.new file.new }
{
    let mut rest = bytes;
    let mut at: u16 = 0;
    while !rest.is_empty() {
        let size = put_line(pending, file, at, rest)?;
        at = offset(at, u16::from(size));
        (_, rest) = rest.split_at(usize::from(size));
    }
    Ok(())
}

/// Writes the disassembly of bytes that stand from address 0 on, to their end, in large writes: a line for each
/// instruction, and for each byte that begins none, as where the end cuts a code short. It takes no memory. The fault has
/// the count of all bytes that the file took.
pub fn put_disassembly<W: Out>(file: &mut Counted<W>, bytes: &[u8]) -> Result<(), WriteFault>
    ensures { Puts W.took W.refused file.old (disassembly bytes.now) result file.new }
{
    let mut pending = Pending::new();
    put_lines(&mut pending, file, bytes)?;
    pending.flush(file)
}
