//! What is seen of a session's board.

ghost use Rattle.std.specs.Prelude.{◌≡◌};
ghost use Rattle.pac_debug_text.specs.Peeks.{bytes_from};
ghost use Rattle.pac_debug.specs.Answers.{session_byte_at, session_place, latches_of};

use pac_board::Board;
use pac_debug_session::Session;
use pac_debug_text::{Latches, Peek, Place};
use pac_num::offset;

/// A board, as its processor reads it.
#[derive(Drop)]
pub(crate) struct Reader<'a> {
    /// The board.
    pub(crate) board: &'a Board,
}

impl<'a> Peek for Reader<'a> {
    ghost use Rattle.pac_board.specs.MemoryContents.{read_of};

    ghost byte_at = { λ reader. read_of reader.board.now.set.program reader.board.now.state.now.board.memory };

    /// Reads the byte at an address.
    fn peek(&self, at: u16) -> u8 {
        self.board.peek(at)
    }
}

/// The four bytes from an address on.
fn four_bytes(session: &Session, at: u16) -> [u8; 4]
    ensures { result ≡ bytes_from (session_byte_at session.now) at 4 }
{
    let board = session.board();
    let second = offset(at, 1);
    let third = offset(second, 1);
    let fourth = offset(third, 1);
    [
        board.peek(at),
        board.peek(second),
        board.peek(third),
        board.peek(fourth),
    ]
}

/// Where a session stands.
pub(crate) fn place_of(session: &Session) -> Place
    ensures { result ≡ session_place session.now }
{
    let board = session.board();
    let regs = board.regs();
    Place {
        index: session.index(),
        time: board.time(),
        pc: regs.pc,
        halted: regs.halted,
        code: four_bytes(session, regs.pc),
    }
}

/// What the latches keep.
pub(crate) fn latches_of(session: &Session) -> Latches
    ensures { result ≡ latches_of session.now }
{
    let memory = session.board().fields().memory;
    Latches {
        latch: memory.latch,
        vector: memory.vector,
        watchdog: memory.count,
    }
}
