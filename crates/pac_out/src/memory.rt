//! A writer over memory.
ghost use Rattle.std.specs.Prelude.{◌≡◌, ◌<◌, ◌≤◌, ◌+◌, ◌↔◌, [], length, min, IfOk, IsErr, vec_len};
ghost use Rattle.std.specs.Prelude.{vec_capacity};
ghost use Rattle.pac_out.specs.Memory.{Space, Adds, IsFull};
ghost use Rattle.pac_out.specs.Writes.{IsWrite};
ghost use Rattle.pac_out.specs.Laws.{adds-nothing, adds-joined};

use crate::{Failed, Out};
use std::alloc::{AllocError, Global};
use std::marker::Model;

/// A writer over memory of a fixed size, made at the start. It keeps the bytes that it took, and refuses
/// where no room is left.
pub struct MemoryWriter {
    held: Vec<u8>,
    room: usize,
}

impl Drop for MemoryWriter {
    /// Drops each part.
    fn drop(self) {
        let MemoryWriter { held: _, room: _ } = self;
    }
}

impl Model for MemoryWriter {
    ghost Value = { Space };

    ghost view = { λ memory. record { bytes = memory.held.items; room = memory.room } };

    ghost invariant = { λ memory. vec_len memory.held + memory.room ≤ vec_capacity memory.held };
}

impl MemoryWriter {
    /// A writer that took nothing yet, with room for so many bytes.
    pub fn new(alloc: Global, room: usize) -> Result<MemoryWriter, AllocError>
        ensures { IfOk result (λ memory. memory ≡ record { bytes = []; room = room }) }
    {
        let held = Vec::with_capacity(alloc, room)?;
        Ok(MemoryWriter { held, room })
    }

    /// The bytes that the writer took.
    pub fn bytes(&self) -> &[u8]
        ensures { result.now ≡ self.now.bytes }
    {
        self.held.as_slice()
    }
}

impl Out for MemoryWriter {
    ghost took = { Adds };

    ghost refused = { IsFull };

    ghost nothing = { adds-nothing };

    ghost joined = { adds-joined };

    /// Takes the bytes for which there is room.
    fn write(&mut self, bytes: &[u8]) -> Result<usize, Failed>
        ensures write { IsWrite Adds IsFull self.old bytes.now result self.new }
        ensures count { IfOk result (λ count. count ≡ min (length bytes.now) self.old.room) }
        ensures full { IsErr result ↔ ((0 < length bytes.now) × (self.old.room ≡ 0)) }
    {
        if self.room == 0 && !bytes.is_empty() {
            return Err(Failed);
        }
        let count = bytes.len().min(self.room);
        self.held.extend_from_slice(&bytes[..count]).unwrap();
        self.room -= count;
        Ok(count)
    }
}
