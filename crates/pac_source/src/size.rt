//! A writer that counts bytes and keeps none.

ghost use Rattle.pac_out.specs.Writes.{IsWrite};
ghost use Rattle.pac_source.specs.Sizes.{size_took, size_refused, size-nothing, size-joined};

use pac_out::{Failed, Out};

/// How many bytes were written, which nothing keeps.
#[derive(Drop)]
pub struct Size {
    /// The bytes.
    pub bytes: u64,
}

impl Size {
    /// Counts the bytes up to the greatest count, which refuses more.
    fn put(&mut self, bytes: &[u8]) -> Result<usize, Failed>
        ensures { IsWrite size_took size_refused self.old bytes.now result self.new }
    {
        let room = u64::MAX - self.bytes;
        if room == 0 {
            return Err(Failed);
        }
        if room < bytes.len() as u64 {
            self.bytes = u64::MAX;
            return Ok(room as usize);
        }
        self.bytes += bytes.len() as u64;
        Ok(bytes.len())
    }
}

impl Out for Size {
    ghost took = { size_took };

    ghost refused = { size_refused };

    ghost nothing = { size-nothing };

    ghost joined = { size-joined };

    /// Counts the bytes.
    fn write(&mut self, bytes: &[u8]) -> Result<usize, Failed> {
        self.put(bytes)
    }
}
