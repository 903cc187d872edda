//! Writers of bytes: `put_all` hands one an output, and it takes all bytes, or the exact count of those that it took before it refused
//! is told.
#![tactic(auto)]

ghost use Rattle.std.specs.Prelude.{◌≡◌, ℕ, List, [], ◌++◌, IfErr, OnOk};
ghost use Rattle.pac_out.specs.Writes.{IsWrite, StopsAfter, took_if_there, refused_if_there};
ghost use Rattle.pac_out.specs.WritesProofs.{lent_took, lent_refused};

pub mod buffer;
pub mod counted;
pub mod faulty;
pub mod memory;
pub mod pending;
pub mod through;

use thiserror::Error;

/// One write was refused.
#[derive(Clone, Copy, Debug, Error)]
#[error("the writer refused")]
pub struct Failed;

/// A writer refused before it had all bytes of an output.
#[derive(Clone, Copy, Debug, PartialEq, Eq, Error)]
#[error("the writer refused after {count} bytes")]
pub struct WriteFault {
    /// The bytes that it had taken.
    pub count: u64,
}

/// A writer of bytes.
///
/// A writer says by two relations between its value before and after what taking bytes leaves of it and what a
/// refusal leaves of it. It needn't keep what it took.
pub trait Out {
    /// What is left of a writer that took these bytes, one after another, in one write or in several.
    ghost took: { Self → List ℕ → Self → Type 0 };

    /// What is left of a writer that refused a write.
    ghost refused: { Self → Self → Type 0 };

    /// Writes a prefix of the bytes and answers how many they are. Taking none of some bytes is a refusal,
    /// as `Failed` is.
    fn write(&mut self, bytes: &[u8]) -> Result<usize, Failed>
        ensures { IsWrite took refused self.old bytes.now result self.new };

    /// Taking nothing changes nothing.
    ghost nothing: { (writer : Self) → took writer [] writer };

    /// Taking some bytes and then others is taking all of them.
    ghost joined: { (first second third : Self) (prefix suffix : List ℕ) → took first prefix second → took second suffix third →
        took first (prefix ++ suffix) third };

    /// Writes all bytes, in as many writes as it takes.
    final fn put_all(&mut self, bytes: &[u8]) -> Result<(), WriteFault>
    where
        Self: Sized,
        ensures ok { OnOk result (took self.old bytes.now self.new) }
        ensures err { IfErr result (λ fault. StopsAfter took refused self.old
            bytes.now fault.count self.new) }
    {
        let mut count = 0;
        while count < bytes.len() {
            match self.write(&bytes[count..]) {
                Ok(taken) if taken > 0 => count += taken,
                _ => {
                    return Err(WriteFault {
                        count: count as u64,
                    });
                }
            }
        }
        Ok(())
    }
}

/// A writer that is lent.
impl<W: Out> Out for &mut W {
    ghost use Rattle.std.proofs.Common.{refl, ◌∙◌};

    ghost took = { lent_took W.took };

    ghost refused = { lent_refused W.refused };

    ghost nothing = { λ writer. (refl, W.nothing writer.now) };

    ghost joined = { λ first second third prefix suffix one other.
        (other.0 ∙ one.0, W.joined first.now second.now third.now prefix suffix one.1 other.1) };

    /// Writes to the writer that is lent.
    fn write(&mut self, bytes: &[u8]) -> Result<usize, Failed> {
        Out::write(&mut **self, bytes)
    }
}

/// A writer that may not be there. Where there is none, all bytes are taken, and none are kept.
impl<W: Out> Out for Option<W> {
    ghost use Rattle.pac_out.specs.Laws.{nothing-if-there, joined-if-there};

    ghost took = { took_if_there W.took };

    ghost refused = { refused_if_there W.refused };

    ghost nothing = { nothing-if-there W.took W.nothing };

    ghost joined = { joined-if-there W.took W.joined };

    /// Writes to the writer, if it is there.
    fn write(&mut self, bytes: &[u8]) -> Result<usize, Failed> {
        match self {
            Some(writer) => writer.write(bytes),
            None => Ok(bytes.len()),
        }
    }
}
