//! Memory as bytes and as instructions.

ghost use Rattle.std.specs.Prelude.{◌≡◌, ◌≤◌, ◌-◌, ℕ, min};
ghost use Rattle.std.specs.List.{flat_map};
ghost use Rattle.pac_dis.specs.Numbers.{wrapped_address};
ghost use Rattle.pac_out.specs.CountedProofs.{Puts};
ghost use Rattle.pac_out.specs.Pending.{Gathers};
ghost use Rattle.pac_debug_text.specs.Peeks as text;

use pac_dis::{hex_byte, hex_word, offset, put_line};
use pac_out::counted::Counted;
use pac_out::pending::Pending;
use pac_out::{Out, WriteFault};

/// What can be looked at as the processor reads it, and isn't changed by it.
pub trait Peek {
    /// The byte that is read at an address.
    ghost byte_at: { Self → ℕ → ℕ };

    /// Reads the byte at an address.
    fn peek(&self, at: u16) -> u8
        ensures { result ≡ byte_at self.now at };
}

/// Gathers a byte after a blank.
fn gather_byte<W: Out>(
    pending: &mut Pending,
    output: &mut Counted<W>,
    byte: u8,
) -> Result<(), WriteFault>
    ensures { Gathers W.took W.refused pending.old output.old (text.spaced_byte byte)
        result pending.new output.new }
{
    let pieces: [&[u8]; 2] = [b" ", &hex_byte(byte)];
    pending.put_pieces(output, &pieces)
}

/// Gathers bytes from an address on, each after a blank.
fn gather_bytes<W: Out, P: Peek>(
    pending: &mut Pending,
    output: &mut Counted<W>,
    memory: &P,
    at: u16,
    count: u16,
) -> Result<(), WriteFault>
    ensures { Gathers W.took W.refused pending.old output.old
        (flat_map text.spaced_byte (text.bytes_from (P.byte_at memory.now) at count))
        result pending.new output.new }
{
    let mut next = at;
    for _ in 0..count {
        gather_byte(pending, output, memory.peek(next))?;
        next = offset(next, 1);
    }
    Ok(())
}

/// Gathers the address of a row.
fn gather_row_head<W: Out>(
    pending: &mut Pending,
    output: &mut Counted<W>,
    at: u16,
) -> Result<(), WriteFault>
    ensures { Gathers W.took W.refused pending.old output.old (text.row_head at)
        result pending.new output.new }
{
    let pieces: [&[u8]; 2] = [&hex_word(at), b":"];
    pending.put_pieces(output, &pieces)
}

/// Gathers a row of bytes from an address on.
#[tactic(auto, unfolding(crate::specs::Peeks::row_text))]
fn gather_row<W: Out, P: Peek>(
    pending: &mut Pending,
    output: &mut Counted<W>,
    memory: &P,
    at: u16,
    count: u16,
) -> Result<(), WriteFault>
    ensures { Gathers W.took W.refused pending.old output.old
        (text.row_text (P.byte_at memory.now) at count) result pending.new
        output.new }
{
    gather_row_head(pending, output, at)?;
    gather_bytes(pending, output, memory, at, count)?;
    pending.put(output, b"\n")
}

/// Gathers rows of bytes from an address on.
fn gather_rows<W: Out, P: Peek>(
    pending: &mut Pending,
    output: &mut Counted<W>,
    memory: &P,
    at: u16,
    count: u16,
) -> Result<(), WriteFault>
    ensures { Gathers W.took W.refused pending.old output.old
        (text.memory_text (P.byte_at memory.now) at count) result pending.new
        output.new }
{
    let mut next = at;
    let mut left = count;
    while left > 0 {
        let shown = left.min(16);
        gather_row(pending, output, memory, next, shown)?;
        next = offset(next, 16);
        left -= shown;
    }
    Ok(())
}

/// Writes bytes from an address on, which wraps at 65,536, in rows of sixteen, as `4040: 42 00`.
pub fn put_memory<W: Out, P: Peek>(
    output: &mut Counted<W>,
    memory: &P,
    at: u16,
    count: u16,
) -> Result<(), WriteFault>
    ensures { Puts W.took W.refused output.old
        (text.memory_text (P.byte_at memory.now) at count) result output.new }
{
    let mut pending = Pending::new();
    gather_rows(&mut pending, output, memory, at, count)?;
    pending.flush(output)
}

/// The four bytes from an address on.
#[tactic(auto, unfolding(crate::specs::Peeks::bytes_from))]
fn four_from<P: Peek>(memory: &P, at: u16) -> [u8; 4]
    ensures { result ≡ text.bytes_from (P.byte_at memory.now) at 4 }
{
    let second = offset(at, 1);
    let third = offset(second, 1);
    let fourth = offset(third, 1);
    [
        memory.peek(at),
        memory.peek(second),
        memory.peek(third),
        memory.peek(fourth),
    ]
}

/// Gathers the lines of instructions from an address on.
fn gather_instructions<W: Out, P: Peek>(
    pending: &mut Pending,
    output: &mut Counted<W>,
    memory: &P,
    at: u16,
    count: u16,
) -> Result<(), WriteFault>
    ensures { Gathers W.took W.refused pending.old output.old
        (text.instructions_text (P.byte_at memory.now) count at) result pending.new
        output.new }
{
    let mut next = at;
    for _ in 0..count {
        let code = four_from(memory, next);
        let size = put_line(pending, output, next, &code)?;
        next = offset(next, u16::from(size));
    }
    Ok(())
}

/// Writes so many instructions from an address on, which wraps at 65,536, each in a line: its address, its bytes left in
/// eight places and its text. Bytes that begin none are shown one by one.
pub fn put_instructions<W: Out, P: Peek>(
    output: &mut Counted<W>,
    memory: &P,
    at: u16,
    count: u16,
) -> Result<(), WriteFault>
    ensures { Puts W.took W.refused output.old
        (text.instructions_text (P.byte_at memory.now) count at) result output.new }
{
    let mut pending = Pending::new();
    gather_instructions(&mut pending, output, memory, at, count)?;
    pending.flush(output)
}
