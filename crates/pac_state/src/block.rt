//! The block in which a host keeps a board's state: a state file's text without its digests.

ghost use Rattle.std.specs.Prelude.{◌≡◌, ◌↔◌, ◌+◌, ◌++◌, ◌≤◌, true, length, take, drop};
ghost use Rattle.pac_board.specs.Fields.{state_of, AreBoardFields};
ghost use Rattle.pac_board.specs.MemoryView.{IsWellFormed};
ghost use Rattle.pac_board.specs.PictureState.{IsPicture};
ghost use Rattle.pac_out.specs.Pieces.{joined_pieces};
ghost use Rattle.pac_state.specs.Block as blocks;
ghost use Rattle.pac_state.specs.Framed as framed;
ghost use Rattle.pac_state.specs.Fronts.{IsFrontOf, front_size};
ghost use Rattle.pac_state.specs.Reading.{state_in};
ghost use Rattle.pac_state.specs.Saved as saved;

use crate::front::{front, put_at};
use crate::header::{MAGIC, VERSION, part, word};
use crate::ranges::in_range;
use crate::reading::{fields_in, lines_of};
use crate::sizes::{BODY_SIZE, FILE_SIZE, FRONT_SIZE};
use pac_board::{Fields, RawLines};

/// What stands where a file has a digest.
const NO_DIGEST: [u8; 20] = [0; 20];

/// Whether zeros stand in place of both digests.
fn has_no_digests(block: &[u8]) -> bool
    requires { length block.now ≡ saved.file_size }
    ensures { (result ≡ true) ↔ framed.HasNoDigests block.now }
{
    NO_DIGEST == *part(block, 10) && NO_DIGEST == *part(block, BODY_SIZE)
}

/// Whether all that isn't of the state is that of a block: the first bytes, the version, and no digests.
fn is_framed(block: &[u8]) -> bool
    requires { length block.now ≡ saved.file_size }
    ensures { (result ≡ true) ↔ framed.IsFramed block.now }
{
    *MAGIC == *part(block, 0) && word(block, 8) == VERSION && has_no_digests(block)
}

/// The fields in a block, if it is the block of a state that a board can have.
pub fn read_block(block: &[u8; FILE_SIZE]) -> Option<Fields<'_>>
    ensures { framed.TellsFields blocks.IsBlock block.now result }
{
    if is_framed(block) {
        fields_in(block)
    } else {
        None
    }
}

/// Writes the colour numbers of a picture, line after line.
fn put_lines(block: &mut [u8], at: usize, lines: &RawLines) -> usize
    requires { at + length (joined_pieces lines.now) ≤ length block.old }
    ensures size { length block.new ≡ length block.old }
    ensures end { result ≡ at + length (joined_pieces lines.now) }
    ensures text { take result block.new ≡ take at block.old ++ joined_pieces lines.now }
{
    put_at(block, at, lines.as_flattened())
}

/// Writes the block of the state that has these fields. Takes no memory.
pub fn write_block(fields: &Fields, block: &mut [u8; FILE_SIZE])
    requires { AreBoardFields fields.now }
    ensures { block.new ≡ blocks.block_text (state_of fields.now) }
{
    in_range(fields);
    let picture = put_at(block, 0, &front(&NO_DIGEST, fields));
    let end = put_lines(block, picture, fields.lines);
    put_at(block, end, &NO_DIGEST);
}

/// The picture's lines in a block.
#[inline(always)]
pub fn block_lines(block: &[u8; FILE_SIZE]) -> &RawLines
    ensures { result.now ≡ (state_in block.now).now.board.lines }
{
    lines_of(part(block, FRONT_SIZE))
}

/// What the block of the state that has these fields begins with, up to its picture.
pub fn block_front(fields: &Fields) -> [u8; FRONT_SIZE]
    requires { AreBoardFields fields.now }
    ensures { IsFrontOf (state_of fields.now) result }
{
    in_range(fields);
    front(&NO_DIGEST, fields)
}

/// Writes over what a block begins with; its picture and what follows stay.
pub fn put_front(front: &[u8; FRONT_SIZE], block: &mut [u8; FILE_SIZE])
    ensures { block.new ≡ front.now ++ drop front_size block.old }
{
    block[..FRONT_SIZE].copy_from_slice(front);
}
