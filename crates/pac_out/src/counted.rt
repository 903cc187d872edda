//! A file: a writer with the count of the bytes that it took, over all calls.

ghost use Rattle.std.specs.Prelude.{◌≡◌, ◌≤◌, ◌+◌, [], length, true, false, IfErr, OnOk, OnErr};

use crate::{Out, WriteFault};
use std::marker::Model;

/// A writer with the count of the bytes that it took. After its first refusal each call answers the same
/// fault and writes nothing. Clauses see the three of them; nobody else sets one.
#[derive(Drop)]
pub struct Counted<W> {
    /// The writer.
    writer: W,
    /// The bytes that it took. The count is exact below 2^64, and stays at 2^64 - 1 from there on.
    count: u64,
    /// Whether it refused.
    failed: bool,
}

impl<W> Model for Counted<W> {
    ghost use Rattle.pac_out.specs.CountedWriter.{CountedWriter};

    ghost Value = { CountedWriter W };

    ghost view = { λ file. record { writer = file.writer; count = file.count; failed = file.failed } };
}

impl<W> Counted<W> {
    /// The fault of a file that has refused, if it has.
    #[inline]
    pub fn check_open(&self) -> Result<(), WriteFault>
        ensures open { OnOk result (self.now.failed ≡ false) }
        ensures failed { OnErr result (self.now.failed ≡ true) }
        ensures count { IfErr result (λ fault. fault.count ≡ self.now.count) }
    {
        if self.failed {
            return Err(WriteFault { count: self.count });
        }
        Ok(())
    }

    /// The writer.
    pub fn into_writer(self) -> W
        ensures { result ≡ self.writer }
    {
        let Counted {
            writer,
            count: _,
            failed: _,
        } = self;
        writer
    }
}

impl<W: Out> Counted<W> {
    ghost use Rattle.pac_out.specs.CountedLaws.{HasTaken};
    ghost use Rattle.pac_out.specs.CountedProofs.{Puts, Stops};
    ghost use Rattle.pac_out.specs.Counted.{file_count};

    /// A file of no bytes yet.
    pub fn new(writer: W) -> Counted<W>
        ensures { HasTaken W.took writer [] result }
    {
        Counted {
            writer,
            count: 0,
            failed: false,
        }
    }

    /// Writes all bytes after those that the file took. The fault has the count of all bytes that the file
    /// took. After it each call answers the same fault and writes nothing.
    pub fn put(&mut self, bytes: &[u8]) -> Result<(), WriteFault>
        ensures put { Puts W.took W.refused self.old bytes.now result self.new }
        ensures taken { OnOk result (self.new.count
            ≡ file_count (self.old.count + length bytes.now)) }
        ensures at_most { self.new.count ≤ self.old.count + length bytes.now }
        ensures stops { self.old.failed ≡ false →
            OnErr result (Stops W.took W.refused self.old bytes.now self.new) }
    {
        self.check_open()?;
        match self.writer.put_all(bytes) {
            Ok(()) => {
                self.count = self.count.saturating_add(bytes.len() as u64);
                Ok(())
            }
            Err(fault) => {
                self.count = self.count.saturating_add(fault.count);
                self.failed = true;
                Err(WriteFault { count: self.count })
            }
        }
    }
}
