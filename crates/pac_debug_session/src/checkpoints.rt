//! The checkpoints of a session: 16 at most, 4,096 steps apart.

ghost use Rattle.std.specs.Prelude.{◌≡◌, ◌<◌, ◌≤◌, ◌+◌, ◌-◌, ◌^◌, IfOk, slice_get, Some, length};
ghost use Rattle.pac_debug_session.specs.Motions.{checkpoint_count};
ghost use Rattle.pac_debug_session.specs.Keeping.{kept_of, ring_with_checkpoint};

use crate::history::History;
use crate::kept::SessionSnapshot;
use circular_buffer::HeapCircularBuffer;
use pac_board_course::Board;
use std::alloc::{AllocError, Global};
use std::marker::Model;

/// How many checkpoints are kept (this profile).
const COUNT: usize = 16;

/// The last 16 checkpoints, each written over the oldest one. Clauses see them, the oldest first, and how many were
/// ever taken.
pub struct Checkpoints {
    ring: HeapCircularBuffer<SessionSnapshot>,
    taken: u64,
}

impl Drop for Checkpoints {
    /// Drops each part.
    fn drop(self) {
        let Checkpoints { ring: _, taken: _ } = self;
    }
}

impl Model for Checkpoints {
    ghost use Rattle.std.specs.Prelude.{◌≡◌, length};
    ghost use Rattle.pac_debug_session.specs.Keeping.{Ring};

    ghost Value = { Ring };

    ghost view = { λ checkpoints. record { kept = checkpoints.ring.items; taken = checkpoints.taken } };

    ghost invariant = { λ checkpoints. record {
      count : length checkpoints.ring.items ≡ 16;
      capacity : checkpoints.ring.capacity ≡ 16;
    } };
}

/// Room for all checkpoints. Refused for want of memory alone.
fn room(alloc: Global, board: &Board) -> Result<HeapCircularBuffer<SessionSnapshot>, AllocError>
    ensures { IfOk result (λ ring. (length ring.items ≡ checkpoint_count)
        × (ring.capacity ≡ checkpoint_count)) }
{
    let mut ring = HeapCircularBuffer::with_capacity(alloc, COUNT)?;
    'making: for _ in 0..COUNT {
        ring.push_back(SessionSnapshot::new(alloc, board)?);
    }
    Ok(ring)
}

impl Checkpoints {
    /// No checkpoint taken yet. Refused for want of memory alone.
    pub fn new(alloc: Global, board: &Board) -> Result<Checkpoints, AllocError>
        ensures { IfOk result (λ checkpoints. (checkpoints.taken ≡ 0)
            × (length checkpoints.kept ≡ checkpoint_count)) }
    {
        Ok(Checkpoints {
            ring: room(alloc, board)?,
            taken: 0,
        })
    }

    /// How many checkpoints were ever taken.
    #[inline]
    pub fn taken(&self) -> u64
        ensures { result ≡ self.now.taken }
    {
        self.taken
    }

    /// Takes a checkpoint, which is written over the oldest. Takes no memory.
    pub fn take(&mut self, board: &Board, history: &History)
        requires { self.old.taken + 1 < 2 ^ 64 }
        ensures { self.new ≡ ring_with_checkpoint self.old (kept_of board.now history.now) }
    {
        let Some(mut kept) = self.ring.pop_front() else {
            unreachable!();
        };
        kept.write(board, history);
        self.ring.push_back(kept);
        self.taken += 1;
    }

    /// The checkpoint of a number, the first that was ever taken being 0.
    pub fn get(&self, number: u64) -> &SessionSnapshot
        requires taken { number < self.now.taken }
        requires kept { self.now.taken ≤ number + checkpoint_count }
        ensures { slice_get self.now.kept (checkpoint_count + number - self.now.taken)
            ≡ Some result.now }
    {
        let place = COUNT - (self.taken - number) as usize;
        let Some(kept) = self.ring.get(place) else {
            unreachable!();
        };
        kept
    }
}
