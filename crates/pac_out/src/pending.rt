//! Bytes that wait for a file, so that small pieces go to its writer in large writes.

ghost use Rattle.std.specs.Prelude.{◌≡◌, ◌≤◌, [], ◌++◌, length, OnOk, MatchBool};
ghost use Rattle.std.specs.List.{flat_map};
ghost use Rattle.pac_out.specs.CountedProofs.{Puts};
ghost use Rattle.pac_out.specs.Pending.{Gathers};

use crate::counted::Counted;
use crate::{Out, WriteFault};
use arrayvec::ArrayVec;
use std::marker::Model;

/// Bytes that wait for a file, at most 8,192 of them, kept in place. Clauses see a list of them. Who gathers a text here
/// flushes at its end.
#[derive(Drop)]
pub struct Pending {
    waiting: ArrayVec<u8, 8192>,
}

impl Model for Pending {
    ghost use Rattle.std.specs.Prelude.{ℕ, List};

    ghost Value = { List ℕ };

    ghost view = { λ pending. pending.waiting.items };
}

impl Pending {
    /// No bytes wait.
    pub fn new() -> Pending
        ensures { result ≡ [] }
    {
        Pending {
            waiting: ArrayVec::new(),
        }
    }

    /// These bytes wait, at most 8,192 of them.
    pub fn of(bytes: &[u8]) -> Pending
        requires { length bytes.now ≤ 8192 }
        ensures { result ≡ bytes.now }
    {
        let mut waiting = ArrayVec::new();
        waiting.try_extend_from_slice(bytes).unwrap();
        Pending { waiting }
    }

    /// Gathers bytes after those that wait where there is room for them, and tells whether there is.
    #[inline]
    fn keep(&mut self, bytes: &[u8]) -> bool
        ensures { MatchBool result (self.new ≡ self.old ++ bytes.now) (self.new ≡ self.old) }
    {
        self.waiting.try_extend_from_slice(bytes).is_ok()
    }

    /// Gathers bytes after those that wait. Where there is no room, what waits is written; bytes that are more than the
    /// whole room go straight to the file.
    #[inline]
    pub fn put<W: Out>(&mut self, file: &mut Counted<W>, bytes: &[u8]) -> Result<(), WriteFault>
        ensures { Gathers W.took W.refused self.old file.old bytes.now result self.new file.new }
    {
        if self.keep(bytes) {
            return Ok(());
        }
        self.put_full(file, bytes)
    }

    /// Gathers bytes for which there is no room: a call of its own, so that `put`, which is inlined, stays short.
    #[inline(never)]
    fn put_full<W: Out>(&mut self, file: &mut Counted<W>, bytes: &[u8]) -> Result<(), WriteFault>
        ensures { Gathers W.took W.refused self.old file.old bytes.now result self.new file.new }
    {
        self.flush(file)?;
        if self.keep(bytes) {
            return Ok(());
        }
        file.put(bytes)
    }

    /// Gathers pieces one after another.
    pub fn put_pieces<W: Out>(
        &mut self,
        file: &mut Counted<W>,
        pieces: &[&[u8]],
    ) -> Result<(), WriteFault>
        ensures { Gathers W.took W.refused self.old file.old
            (flat_map (λ piece. piece.now) pieces.now) result self.new file.new }
    {
        for piece in pieces {
            self.put(file, piece)?;
        }
        Ok(())
    }

    /// Writes what waits, and then nothing waits.
    pub fn flush<W: Out>(&mut self, file: &mut Counted<W>) -> Result<(), WriteFault>
        ensures put { Puts W.took W.refused file.old self.old result file.new }
        ensures emptied { OnOk result (self.new ≡ []) }
    {
        file.put(&self.waiting)?;
        self.waiting.clear();
        Ok(())
    }
}

impl<W: Out> Counted<W> {
    /// Writes pieces one after another, in large writes.
    pub fn put_pieces(&mut self, pieces: &[&[u8]]) -> Result<(), WriteFault>
        ensures { Puts W.took W.refused self.old
            (flat_map (λ piece. piece.now) pieces.now) result self.new }
    {
        let mut pending = Pending::new();
        pending.put_pieces(self, pieces)?;
        pending.flush(self)
    }
}
