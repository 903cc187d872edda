//! The handle of a live board: where the board lies in memory that a host lends, and whether it lies there.

ghost use Rattle.pac_board.specs.State.{BoardValue};
ghost use Rattle.pac_board.specs.contracts.board.Board.{the_row as board_row};

use pac_board::Board;
use std::marker::Model;

/// A live board in memory that a host lends: `size` bytes from `at` on, which begin at a place that 16 divides. All zeros, or a seal of
/// another number than an open handle's, is a closed handle. A copy of an open handle is no second board, and isn't handed in.
#[repr(C)]
pub struct PacLive {
    /// Where the memory begins.
    at: *mut u8,
    /// Its bytes.
    size: usize,
    /// Whether a board lies there: by one number alone.
    seal: u64,
    /// The board, if it lies there.
    pub ghost board: { BoardValue } by { board_row.coded },
}

impl Model for PacLive {
    ghost use Rattle.pac_live.specs.LiveMemory.{live_owns};

    ghost also_owns = { λ live. live_owns live.seal live.size live.at live.board };
}

impl PacLive {
    ghost use Rattle.std.specs.Prelude.{◌≡◌};
    ghost use Rattle.std.specs.Borrow.{sem};
    ghost use denote.Follow.{follows};
    ghost use Rattle.pac_board.specs.contracts.board.Board.{the_row as board_row};
    ghost use Rattle.pac_live.specs.contracts.live.PacLive.{the_row as live_row};
    ghost use Rattle.pac_live.specs.Handle.{live_with_board};
    ghost use Rattle.pac_live.specs.Lent.{IsLent};
    ghost use Rattle.pac_live.specs.LiveMemory.{live_seal};

    /// The seal.
    pub(crate) fn seal(&mut self) -> u64
        ensures { (result ≡ self.old.seal) × (self.new ≡ self.old) }
    {
        self.seal
    }

    /// The bytes of the memory.
    pub(crate) fn size(&mut self) -> usize
        ensures { (result ≡ self.old.size) × (self.new ≡ self.old) }
    {
        self.size
    }

    /// The board of an open handle.
    pub(crate) fn board(&mut self) -> &mut Board
        requires { self.old.seal ≡ live_seal }
        ensures* writes_back { sem 𝓛 (follows live_row board_row self.entry.ghost_name
            result.ghost_name (live_with_board self.old)) }
        ensures value { result.now ≡ self.old.board }
    {
        unsafe { &mut *(self.at as *mut Board) }
    }

    /// Puts a board into the memory of a closed handle, and opens it by this seal.
    pub(crate) fn place(&mut self, board: Board, seal: u64)
        requires { IsLent self.old seal }
        ensures { self.new ≡ record (live_with_board self.old board) { seal = seal } }
    {
        unsafe { (self.at as *mut Board).write(board) };
        self.seal = seal;
    }

    /// Closes an open handle: its board is gone, and the memory is lent still.
    pub(crate) fn close(&mut self)
        requires { self.old.seal ≡ live_seal }
        ensures { self.new ≡ record self.old { seal = 0 } }
    {
        self.seal = 0;
    }
}
