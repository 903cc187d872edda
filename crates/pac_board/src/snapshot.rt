//! A board's state, kept beside it and put back.

ghost use Rattle.std.specs.Prelude.{◌≡◌, IfOk};
ghost use Rattle.pac_board.specs.StateLaws.{restored_board};

use crate::board::Board;
use pac_machine::{Due, Frozen};
use std::alloc::{AllocError, Global};
use std::marker::Model;

/// A board's state: the moment that it stood at, the microseconds asked of it, and what was due. Clauses see the state.
pub struct Snapshot {
    frozen: Box<Frozen>,
    asked: u64,
    due: Due,
}

impl Drop for Snapshot {
    /// Drops each part.
    fn drop(self) {
        let Snapshot {
            frozen: _,
            asked: _,
            due: _,
        } = self;
    }
}

impl Model for Snapshot {
    ghost use Rattle.std.specs.Prelude.{◌≤◌};
    ghost use Rattle.pac_board.specs.State.{BoardState, most_asked};

    ghost Value = { BoardState };

    ghost view = { λ snapshot. record { now = snapshot.frozen.value; asked = snapshot.asked; due = snapshot.due } };

    ghost invariant = { λ snapshot. snapshot.asked ≤ most_asked };
}

impl Board {
    /// The state as it is now. Refused for want of memory alone.
    pub fn snapshot(&self, alloc: Global) -> Result<Snapshot, AllocError>
        ensures { IfOk result (λ snapshot. snapshot ≡ self.now.state) }
    {
        let mut frozen = Box::new(alloc, Frozen::new())?;
        self.machine.freeze(&mut frozen);
        Ok(Snapshot {
            frozen,
            asked: self.asked,
            due: self.due,
        })
    }

    /// Writes the state as it is now over an old one. Takes no memory.
    pub fn snapshot_into(&self, snapshot: &mut Snapshot)
        ensures { snapshot.new ≡ self.now.state }
    {
        self.machine.freeze(&mut snapshot.frozen);
        snapshot.asked = self.asked;
        snapshot.due = self.due;
    }

    /// Goes back to a state, what was due then included. The board keeps its own ROM set. Takes no memory.
    pub fn restore(&mut self, snapshot: &Snapshot)
        ensures { self.new ≡ restored_board self.old snapshot.now }
    {
        self.made = self.made();
        self.machine.thaw(&snapshot.frozen);
        self.since = self.machine.steps();
        self.asked = snapshot.asked;
        self.due = snapshot.due;
    }
}
