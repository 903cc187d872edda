//! The fields of a state in the bytes of a file.

ghost use Rattle.std.specs.Prelude.{◌≡◌, ◌↔◌, ◌<◌, ◌≤◌, ◌*◌, ◌+◌, true, length, slice_index};
ghost use Rattle.pac_board.specs.Fields.{state_of, AreBoardFields};
ghost use Rattle.pac_board.specs.Inputs as inputs;
ghost use Rattle.pac_board.specs.MemoryFields.{view_of_fields};
ghost use Rattle.pac_board.specs.Tiles as tile;
ghost use Rattle.pac_state.specs.Framed.{TellsFields};
ghost use Rattle.pac_state.specs.Reading as read;
ghost use Rattle.pac_state.specs.Saved as saved;
ghost use Rattle.pac_state.specs.Text as text;

use crate::blocks::{controls, due, processor};
use crate::header::{double_word, long_word, part, word};
use crate::sizes::{PictureBlock, ProcessorBlock};
use pac_board::{Alternate, Due, Fields, Flags, Inputs, InterruptMode, RawLines, Regs, WIDTH};
use pac_num::bit;

/// Whether a bit of a byte is set.
fn is_set(byte: u8, place: u8) -> bool
    requires { place < 8 }
    ensures { result ≡ read.is_bit_set byte place }
{
    bit(byte, place) == 1
}

/// The interrupt mode of a number.
fn mode(number: u8) -> InterruptMode
    ensures { result ≡ read.mode_of number }
{
    match number {
        0 => InterruptMode::Zero,
        1 => InterruptMode::One,
        _ => InterruptMode::Two,
    }
}

/// The second set of registers of the processor's bytes.
fn alternate(bytes: &ProcessorBlock) -> Alternate
    ensures { result ≡ (read.regs_of bytes.now).alternate }
{
    Alternate {
        a: bytes[8],
        f: bytes[9],
        b: bytes[10],
        c: bytes[11],
        d: bytes[12],
        e: bytes[13],
        h: bytes[14],
        l: bytes[15],
    }
}

/// The processor of its bytes.
fn regs(bytes: &ProcessorBlock) -> Regs
    ensures { result ≡ read.regs_of bytes.now }
{
    let flags = bytes[26];
    Regs {
        a: bytes[0],
        f: bytes[1],
        b: bytes[2],
        c: bytes[3],
        d: bytes[4],
        e: bytes[5],
        h: bytes[6],
        l: bytes[7],
        alternate: alternate(bytes),
        ix: word(bytes, 16),
        iy: word(bytes, 18),
        sp: word(bytes, 20),
        pc: word(bytes, 22),
        i: bytes[24],
        r: bytes[25],
        iff1: is_set(flags, 0),
        iff2: is_set(flags, 1),
        mode: mode(bytes[27]),
        halted: is_set(flags, 2),
        after_ei: is_set(flags, 3),
    }
}

/// What is due, of its bytes.
fn due_of(bytes: &[u8; 3]) -> Due
    ensures { result ≡ read.due_of bytes.now }
{
    let sample = if is_set(bytes[0], 0) {
        Some(word(bytes, 1).cast_signed())
    } else {
        None
    };
    Due {
        sample,
        picture: is_set(bytes[0], 1),
    }
}

/// The inputs of a mask.
fn inputs_of(mask: u16) -> Inputs
    ensures { inputs.mask result ≡ mask }
{
    Inputs::from_bits_retain(mask)
}

/// The memory in a file.
fn memory(bytes: &[u8]) -> pac_board::MemoryFields<'_>
    requires { length bytes.now ≡ saved.file_size }
    ensures { view_of_fields result ≡ read.memory_of (read.controls_in bytes.now) bytes.now }
{
    let controls: &[u8; 7] = part(bytes, 3214);
    pac_board::MemoryFields {
        tile: part(bytes, 82),
        colour: part(bytes, 1106),
        work: part(bytes, 2130),
        coordinates: *part(bytes, 3154),
        registers: *part(bytes, 3170),
        latch: controls[0],
        vector: controls[1],
        requested: controls[2] == 1,
        count: controls[3],
        held: inputs_of(word(controls, 4)),
        switches: controls[6],
    }
}

/// The lines of a picture in its bytes.
#[inline(always)]
pub(crate) fn lines_of(bytes: &PictureBlock) -> &RawLines
    ensures { result.now ≡ read.lines_of bytes.now }
{
    all_lines(bytes.as_chunks().0)
}

/// So many lines as a picture has.
#[inline(always)]
fn all_lines(lines: &[[u8; WIDTH]]) -> &RawLines
    requires { length lines.now ≡ tile.height }
    ensures { result.now ≡ lines.now }
{
    lines.first_chunk().unwrap()
}

/// The fields in a file.
fn fields(bytes: &[u8]) -> Fields<'_>
    requires { length bytes.now ≡ saved.file_size }
    ensures { state_of result ≡ read.state_in bytes.now }
{
    Fields {
        regs: regs(part(bytes, 30)),
        time: long_word(bytes, 58),
        steps: long_word(bytes, 66),
        asked: long_word(bytes, 74),
        memory: memory(bytes),
        accumulators: [
            double_word(bytes, 3202),
            double_word(bytes, 3206),
            double_word(bytes, 3210),
        ],
        due: due_of(part(bytes, 3221)),
        lines: lines_of(part(bytes, 3224)),
    }
}

/// Whether fields, written again, are the bytes of a file that they were read from.
fn are_written(fields: &Fields, bytes: &[u8]) -> bool
    requires { length bytes.now ≡ saved.file_size }
    ensures { (result ≡ true) ↔ saved.AreWritten (state_of fields.now) bytes.now }
{
    processor(&fields.regs) == *part(bytes, 30)
        && controls(&fields.memory) == *part(bytes, 3214)
        && due(fields.due) == *part(bytes, 3221)
}

/// Whether fields that were read from a file are a state's, and stand there as they are written.
fn are_taken(fields: &Fields, bytes: &[u8]) -> bool
    requires { length bytes.now ≡ saved.file_size }
    ensures { (result ≡ true)
        ↔ (AreBoardFields fields.now × saved.AreWritten (state_of fields.now) bytes.now) }
{
    fields.are_in_range() && are_written(fields, bytes)
}

/// The fields that stand in bytes of a file's size, if they are a state's and stand there as they are written.
pub(crate) fn fields_in(bytes: &[u8]) -> Option<Fields<'_>>
    requires { length bytes.now ≡ saved.file_size }
    ensures { TellsFields saved.IsText bytes.now result }
{
    let fields = fields(bytes);
    if are_taken(&fields, bytes) {
        Some(fields)
    } else {
        None
    }
}
