//! A writer for tests, that takes few bytes a call and refuses a call.
ghost use Rattle.std.specs.Prelude.{◌≡◌, ◌-◌, [], length, min, IfOk, IsErr};
ghost use Rattle.pac_out.specs.Faulty.{WeakWriter, Passes, IsRefused};
ghost use Rattle.pac_out.specs.Writes.{IsWrite};
ghost use Rattle.pac_out.specs.Laws.{passes-nothing, passes-joined};

use crate::memory::MemoryWriter;
use crate::{Failed, Out};
use std::alloc::{AllocError, Global};
use std::marker::Model;

/// A writer over memory for tests. It takes at most so many bytes a call, and refuses one call.
pub struct Faulty {
    memory: MemoryWriter,
    most: usize,
    refusal: u64,
}

impl Drop for Faulty {
    /// Drops each part.
    fn drop(self) {
        let Faulty {
            memory: _,
            most: _,
            refusal: _,
        } = self;
    }
}

impl Model for Faulty {
    ghost Value = { WeakWriter };

    ghost view = { λ faulty. record { space = faulty.memory; most = faulty.most; refusal = faulty.refusal } };
}

impl Faulty {
    /// A writer with room for so many bytes, that takes at most `most` bytes a call and refuses the call of the number
    /// `refusal`, once: 1 is its first call, 0 is none.
    pub fn new(alloc: Global, room: usize, most: usize, refusal: u64) -> Result<Faulty, AllocError>
        ensures { IfOk result (λ faulty. faulty
            ≡ record {
              space = record { bytes = []; room = room };
              most = most;
              refusal = refusal;
            }) }
    {
        let memory = MemoryWriter::new(alloc, room)?;
        Ok(Faulty {
            memory,
            most,
            refusal,
        })
    }

    /// The bytes that the writer took.
    pub fn bytes(&self) -> &[u8]
        ensures { result.now ≡ self.now.space.bytes }
    {
        self.memory.bytes()
    }
}

impl Out for Faulty {
    ghost took = { Passes };

    ghost refused = { IsRefused };

    ghost nothing = { passes-nothing };

    ghost joined = { passes-joined };

    /// Takes a prefix of the bytes, or refuses where this is the call that it refuses.
    fn write(&mut self, bytes: &[u8]) -> Result<usize, Failed>
        ensures write { IsWrite Passes IsRefused self.old bytes.now result self.new }
        ensures call { self.new.refusal ≡ self.old.refusal - 1 }
        ensures count { IfOk result (λ count. count
            ≡ min (min (length bytes.now) self.old.most) self.old.space.room) }
        ensures refusal { self.old.refusal ≡ 1 → IsErr result }
    {
        let is_refused = self.refusal == 1;
        self.refusal = self.refusal.saturating_sub(1);
        if is_refused {
            return Err(Failed);
        }
        let count = bytes.len().min(self.most);
        self.memory.write(&bytes[..count])
    }
}
