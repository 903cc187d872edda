//! What a state's text has before its picture, as it is written.

ghost use Rattle.std.specs.Prelude.{◌≡◌, ◌+◌, ◌++◌, ◌≤◌, length, take};
ghost use Rattle.std.specs.List.{flat_map};
ghost use Rattle.pac_board.specs.Fields.{state_of, AreBoardFields};
ghost use Rattle.pac_out.specs.Pieces.{joined_pieces};
ghost use Rattle.pac_state.specs.Text as text;

use crate::blocks::{controls, due, processor};
use crate::header::{MAGIC, VERSION};
use crate::ranges::{in_range, sizes};
use crate::sizes::{DEVICES_SIZE, FRONT_SIZE, HEAD_SIZE};
use pac_board::Fields;

/// Writes a piece at a place, and tells the place after it.
pub(crate) fn put_at(bytes: &mut [u8], at: usize, piece: &[u8]) -> usize
    requires { at + length piece.now ≤ length bytes.old }
    ensures size { length bytes.new ≡ length bytes.old }
    ensures end { result ≡ at + length piece.now }
    ensures text { take result bytes.new ≡ take at bytes.old ++ piece.now }
{
    let end = at + piece.len();
    bytes[at..end].copy_from_slice(piece);
    end
}

/// Pieces of N bytes in all, one after another.
fn joined<const N: usize>(pieces: &[&[u8]]) -> [u8; N]
    requires { length (flat_map (λ piece. piece.now) pieces.now) ≡ N }
    ensures { result ≡ flat_map (λ piece. piece.now) pieces.now }
{
    let mut bytes = [0; N];
    let mut end = 0;
    for piece in pieces {
        end = put_at(&mut bytes, end, piece);
    }
    bytes
}

/// What comes before the memory: what a text begins with, version and digest, processor and counters.
fn head(digest: &[u8; 20], fields: &Fields) -> [u8; HEAD_SIZE]
    ensures { result ≡ joined_pieces (text.head text.written_version digest.now
        (state_of fields.now)) }
{
    let digest = *digest;
    let pieces: [&[u8]; 7] = [
        MAGIC,
        &VERSION.to_le_bytes(),
        &digest,
        &processor(&fields.regs),
        &fields.time.to_le_bytes(),
        &fields.steps.to_le_bytes(),
        &fields.asked.to_le_bytes(),
    ];
    joined(&pieces)
}

/// What stands between the three RAMs and the picture.
fn devices(fields: &Fields) -> [u8; DEVICES_SIZE]
    ensures { result ≡ joined_pieces (text.devices (state_of fields.now)) }
{
    sizes(&fields.memory);
    let memory = fields.memory;
    let coordinates = memory.coordinates;
    let registers = memory.registers;
    let [first, second, third] = fields.accumulators;
    let pieces: [&[u8]; 7] = [
        &coordinates,
        &registers,
        &first.to_le_bytes(),
        &second.to_le_bytes(),
        &third.to_le_bytes(),
        &controls(&memory),
        &due(fields.due),
    ];
    joined(&pieces)
}

/// All that comes before the picture: what comes before the memory, the three RAMs, and what stands between them and the picture.
pub(crate) fn front(digest: &[u8; 20], fields: &Fields) -> [u8; FRONT_SIZE]
    requires { AreBoardFields fields.now }
    ensures { result ≡ text.file_front text.written_version digest.now (state_of fields.now) }
{
    in_range(fields);
    let digest = *digest;
    let head = head(&digest, fields);
    let devices = devices(fields);
    let memory = fields.memory;
    let tile = memory.tile;
    let colour = memory.colour;
    let work = memory.work;
    let pieces: [&[u8]; 5] = [&head, &tile[..], &colour[..], &work[..], &devices];
    joined(&pieces)
}
