//! What is kept of a session's moment, to go back to.

ghost use Rattle.std.specs.Prelude.{◌≡◌, IfOk, false, []};
ghost use Rattle.pac_board_course.specs.StateLaws.{restored_board};
ghost use Rattle.pac_debug_session.specs.Keeping.{kept_of};

use crate::history::History;
use pac_board_course::{Board, Snapshot};
use std::alloc::{AllocError, Global};

/// A board's state, and the steps that were told then.
pub struct SessionSnapshot {
    pub snapshot: Snapshot,
    pub history: History,
}

impl Drop for SessionSnapshot {
    /// Drops each part.
    fn drop(self) {
        let SessionSnapshot {
            snapshot: _,
            history: _,
        } = self;
    }
}

/// What a slot has, where it is filled.
#[derive(Drop)]
pub struct SlotContents {
    pub kept: SessionSnapshot,
    pub filled: bool,
}

impl SessionSnapshot {
    /// Room for what is kept: this board's state for now, and no steps. Refused for want of memory alone.
    pub fn new(alloc: Global, board: &Board) -> Result<SessionSnapshot, AllocError>
        ensures { IfOk result (λ kept. kept ≡ kept_of board.now []) }
    {
        let snapshot = board.snapshot(alloc)?;
        let history = History::new(alloc)?;
        Ok(SessionSnapshot { snapshot, history })
    }

    /// Writes a moment over what was kept. Takes no memory.
    pub fn write(&mut self, board: &Board, history: &History)
        ensures { self.new ≡ kept_of board.now history.now }
    {
        board.snapshot_into(&mut self.snapshot);
        self.history.copy_from(history);
    }

    /// Brings board and history back to the moment that is kept.
    pub fn put_back(&self, board: &mut Board, history: &mut History)
        ensures board { board.new ≡ restored_board board.old self.now.snapshot }
        ensures history { history.new ≡ self.now.history }
    {
        board.restore(&self.snapshot);
        history.copy_from(&self.history);
    }
}

impl SlotContents {
    /// An empty slot. Refused for want of memory alone.
    pub fn new(alloc: Global, board: &Board) -> Result<SlotContents, AllocError>
        ensures { IfOk result (λ slot. slot.filled ≡ false) }
    {
        Ok(SlotContents {
            kept: SessionSnapshot::new(alloc, board)?,
            filled: false,
        })
    }
}
