//! Any writer of std's as an output.
ghost use Rattle.std.specs.Prelude.{◌≡◌};
ghost use Rattle.std.specs.Io.KnownBytes.{Appends, Keeps};
ghost use Rattle.pac_out.specs.Laws.{appends-nothing, appends-joined};

use crate::{Failed, Out};
use std::io;
use std::io::ErrorKind;

/// A writer of std's as an output. Bytes go straight through, with no buffer of its own; a write that was
/// interrupted is tried again, any other error is a refusal.
#[derive(Drop)]
pub struct Through<W> {
    /// The writer.
    pub inner: W,
}

impl<W: io::Write> Out for Through<W> {
    ghost took = { λ old bytes new. Appends (W.contents old.inner) (W.contents new.inner) bytes };

    ghost refused = { λ old new. Keeps (W.contents old.inner) (W.contents new.inner) };

    ghost nothing = { λ writer. appends-nothing (W.contents writer.inner) };

    ghost joined = { λ first second third. appends-joined (W.contents first.inner) (W.contents second.inner) (W.contents third.inner) };

    /// Hands the bytes on, again after an interruption.
    fn write(&mut self, bytes: &[u8]) -> Result<usize, Failed> {
        for _ in 0..u64::MAX {
            match self.inner.write(bytes) {
                Ok(count) => return Ok(count),
                Err(error) if error.kind() == ErrorKind::Interrupted => {}
                Err(_) => return Err(Failed),
            }
        }
        Err(Failed)
    }
}
