//! The answers of commands that show nothing.

ghost use Rattle.pac_out.specs.CountedProofs.{Puts};
ghost use Rattle.pac_debug_text.specs.Texts as text;

use itoa::Buffer;
use pac_out::counted::Counted;
use pac_out::{Out, WriteFault};

/// Why a command did nothing.
#[derive(Clone, Copy)]
pub enum Refusal {
    /// G1: the line is no command of the table.
    NoCommand,
    /// G2: the step lies before the oldest to which a session goes back, which is told.
    TooFarBack(u64),
    /// G3: nothing is kept in the slot.
    EmptySlot,
    /// G4: 64 breakpoints are set.
    NoRoom,
}

/// Writes that a command was done: `ok`.
pub fn put_ok<W: Out>(output: &mut Counted<W>) -> Result<(), WriteFault>
    ensures { Puts W.took W.refused output.old text.ok_text result output.new }
{
    output.put(b"ok\n")
}

/// Writes that the session doesn't go back so far, and to which step it does.
fn put_too_far_back<W: Out>(output: &mut Counted<W>, oldest: u64) -> Result<(), WriteFault>
    ensures { Puts W.took W.refused output.old (text.too_far_back_text oldest) result output.new }
{
    let mut digits = Buffer::new();
    let pieces: [&[u8]; 3] = [
        b"refused G2 oldest ",
        digits.format(oldest).as_bytes(),
        b"\n",
    ];
    output.put_pieces(&pieces)
}

/// Writes why a command did nothing: `refused G1`, or `refused G2 oldest 4096`.
pub fn put_refusal<W: Out>(output: &mut Counted<W>, refusal: Refusal) -> Result<(), WriteFault>
    ensures { Puts W.took W.refused output.old (text.refusal_text refusal) result output.new }
{
    match refusal {
        Refusal::NoCommand => output.put(b"refused G1\n"),
        Refusal::TooFarBack(oldest) => put_too_far_back(output, oldest),
        Refusal::EmptySlot => output.put(b"refused G3\n"),
        Refusal::NoRoom => output.put(b"refused G4\n"),
    }
}
