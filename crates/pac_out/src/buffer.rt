//! A writer into a host's buffer.

ghost use Rattle.std.specs.Prelude.{◌≡◌, ◌≤◌, ◌+◌, ◌++◌, length, take, drop};
ghost use Rattle.pac_out.specs.Writes.{IsWrite};
ghost use Rattle.pac_out.specs.Buffers.{buffer_took, buffer_refused, buffer-nothing, buffer-joined};

use crate::{Failed, Out};

/// Writes bytes into a buffer of a host's, from its head on, up to its end. What is after them stays as it is.
#[derive(Drop)]
pub struct HostBuffer<'a> {
    /// The buffer.
    pub bytes: &'a mut [u8],
    /// How many bytes it has.
    pub taken: usize,
}

/// Writes bytes at a place.
#[inline]
fn lay(buffer: &mut [u8], at: usize, bytes: &[u8])
    requires { at + length bytes.now ≤ length buffer.old }
    ensures size { length buffer.new ≡ length buffer.old }
    ensures text { take (at + length bytes.now) buffer.new ≡ take at buffer.old ++ bytes.now }
    ensures rest { drop (at + length bytes.now) buffer.new
        ≡ drop (at + length bytes.now) buffer.old }
{
    buffer[at..at + bytes.len()].copy_from_slice(bytes);
}

impl HostBuffer<'_> {
    /// Writes the bytes for which there is room after the others; a full buffer refuses.
    fn put(&mut self, bytes: &[u8]) -> Result<usize, Failed>
        ensures { IsWrite buffer_took buffer_refused self.old bytes.now result self.new }
    {
        if self.taken >= self.bytes.len() {
            return Err(Failed);
        }
        let count = bytes.len().min(self.bytes.len() - self.taken);
        lay(self.bytes, self.taken, &bytes[..count]);
        self.taken += count;
        Ok(count)
    }
}

impl Out for HostBuffer<'_> {
    ghost took = { buffer_took };

    ghost refused = { buffer_refused };

    ghost nothing = { buffer-nothing };

    ghost joined = { buffer-joined };

    /// Writes the bytes for which there is room after the others; a full buffer refuses.
    fn write(&mut self, bytes: &[u8]) -> Result<usize, Failed> {
        self.put(bytes)
    }
}
