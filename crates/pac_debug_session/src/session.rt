//! A session: where it is in the run, and what it has kept.

ghost use Rattle.std.specs.Prelude.{◌≡◌, ◌<◌, ◌≤◌, []};
ghost use Rattle.std.specs.Prelude.{slice_get, length, IfOk, IfErr, slice_index_or, None, Some};
ghost use Rattle.pac_board_course.specs.State as state;
ghost use Rattle.pac_board_course.specs.Stretches.{most_frames, total_frames};
ghost use Rattle.pac_debug_session.specs.Keeping.{AreEmpty};
ghost use Rattle.pac_debug_session.specs.Running.{now_at};
ghost use Rattle.pac_debug_session.specs.Past.{told_at, told_step_count};
ghost use Rattle.pac_debug_session.specs.SessionLaws.{IsSession, slot_count};
ghost use Rattle.pac_debug_session.specs.SessionProofs.{IsNew, IsSet};
ghost use Rattle.pac_debug_session.specs.Session.{session_at_start, has_breakpoint};
ghost use Rattle.pac_debug_session.specs.Session.{without_breakpoint};
ghost use Rattle.pac_debug_session.specs.Motions.{checkpoint_count, session_with_slot};
ghost use Rattle.pac_debug_session.specs.MotionsProofs.{ReturnsTo};
ghost use Rattle.pac_debug_session.specs.Playing.{course_of};

use crate::breakpoints::{Breakpoints, Full};
use crate::checkpoints::Checkpoints;
use crate::history::History;
use crate::kept::SlotContents;
use pac_board_course::{Board, Course, FRAME_TICKS, PastStep, Script, hold};
use std::alloc::{AllocError, Global};
use std::marker::Model;

/// Where the DIP switches are read.
const SWITCHES: u16 = 0x5080;

/// The slots of a session (this profile).
const SLOTS: usize = 4;

/// A session over the run of a script on a board. Clauses see the run, where the session is in it, its breakpoints and slots, what
/// is due, and the counts of steps that were done.
pub struct Session {
    pub(crate) board: Box<Board>,
    pub(crate) script: Script,
    pub(crate) switches: u8,
    pub(crate) limit: u64,
    pub(crate) furthest: u64,
    pub(crate) breakpoints: Breakpoints,
    pub(crate) history: History,
    pub(crate) checkpoints: Checkpoints,
    pub(crate) slots: Vec<SlotContents>,
    pub(crate) replayed: u32,
}

impl Drop for Session {
    /// Drops each part.
    fn drop(self) {
        let Session {
            board: _,
            script: _,
            switches: _,
            limit: _,
            furthest: _,
            breakpoints: _,
            history: _,
            checkpoints: _,
            slots: _,
            replayed: _,
        } = self;
    }
}

impl Model for Session {
    ghost use Rattle.pac_debug_session.specs.Session.{SessionValue};

    ghost Value = { SessionValue };

    ghost use Rattle.pac_debug_session.specs.Inside.{session_view, IsInsideRight};

    ghost view = { session_view };

    ghost invariant = { IsInsideRight };
}

/// There wasn't the memory for a session; board and script come back.
#[derive(Drop)]
pub struct SessionRefused {
    /// The board that was handed in.
    pub board: Box<Board>,
    /// The script that was handed in.
    pub script: Script,
}

/// The slots, all empty. Refused for want of memory alone.
#[tactic(auto, using(crate::proofs::Begun::empty_slots))]
fn empty_slots(alloc: Global, board: &Board) -> Result<Vec<SlotContents>, AllocError>
    ensures { IfOk result (λ slots. (length slots.items ≡ slot_count) × AreEmpty slots.items) }
{
    let mut slots = Vec::new(alloc);
    'making: for _ in 0..SLOTS {
        slots.push(SlotContents::new(alloc, board)?)?;
    }
    Ok(slots)
}

/// Room for all that a session keeps. Refused for want of memory alone.
fn room(
    alloc: Global,
    board: &Board,
) -> Result<(History, Checkpoints, Vec<SlotContents>, Breakpoints), AllocError>
    ensures { IfOk result (λ room. (room.0 ≡ []) × (room.1.taken ≡ 0)
        × (length room.1.kept ≡ checkpoint_count)
        × (length room.2.items ≡ slot_count) × AreEmpty room.2.items × (room.3 ≡ [])) }
{
    let history = History::new(alloc)?;
    let checkpoints = Checkpoints::new(alloc, board)?;
    let slots = empty_slots(alloc, board)?;
    let breakpoints = Breakpoints::new(alloc)?;
    Ok((history, checkpoints, slots, breakpoints))
}

impl Session {
    /// A session at the beginning of the run of a script on a board as `init` makes it, whichever inputs are held. It makes all the
    /// room that it needs: later calls take no memory. Refused for want of memory alone; board and script then come back.
    pub fn new(
        alloc: Global,
        mut board: Box<Board>,
        script: Script,
    ) -> Result<Session, SessionRefused>
        requires { IsNew board.value }
        ensures session { IfOk result (λ session.
            session ≡ session_at_start (record {
              set = board.value.set;
              switches = board.value.state.now.board.memory.switches;
              script = script;
            }) board.value.made) }
        ensures refused { IfErr result
            (λ refused. (refused.board ≡ board) × (refused.script ≡ script)) }
    {
        let Ok((history, checkpoints, slots, breakpoints)) = room(alloc, &board) else {
            return Err(SessionRefused { board, script });
        };
        let switches = board.peek(SWITCHES);
        let limit = FRAME_TICKS * u64::from(script.frames());
        hold(&mut board, script.held(1));
        Ok(Session {
            board,
            script,
            switches,
            limit,
            furthest: 0,
            breakpoints,
            history,
            checkpoints,
            slots,
            replayed: 0,
        })
    }

    /// What holds of every session.
    pub(crate) fn facts(&self)
        ensures { IsSession self.now }
    {
        self.board.made();
    }

    /// The index at which the session stands: the steps of the run before it.
    #[inline]
    pub fn index(&self) -> u64
        ensures { result ≡ self.now.index }
    {
        self.board.steps()
    }

    /// The furthest index at which the session was.
    #[inline]
    pub fn furthest(&self) -> u64
        ensures { result ≡ self.now.furthest }
    {
        self.furthest
    }

    /// The board as it is at the session's index.
    #[inline]
    pub fn board(&self) -> &Board
        ensures now { result.now.state.now ≡ now_at self.now.setting self.now.index }
        ensures set { result.now.set ≡ self.now.setting.set }
        ensures made { result.now.made ≡ self.now.made }
    {
        &self.board
    }

    /// The frames of the session's run, 0 to 36,000.
    pub fn frames(&self) -> u32
        ensures count { result ≡ total_frames self.now.setting.script }
        ensures within { result ≤ most_frames }
    {
        self.script.frames()
    }

    /// The steps that the last command did again.
    #[inline]
    pub fn replayed(&self) -> u32
        ensures { result ≡ self.now.replayed }
    {
        self.replayed
    }

    /// How many of the steps before this index are told, 0 to 256.
    pub fn history_len(&self) -> usize
        ensures { result ≡ length (told_at self.now.setting self.now.index) }
    {
        self.history.len()
    }

    /// A step before this index, of those that are told; the oldest of them is at place 0.
    pub fn history(&self, place: usize) -> Option<PastStep>
        ensures { result ≡ slice_get (told_at self.now.setting self.now.index) place }
    {
        self.history.get(place)
    }

    /// Whether an address is a breakpoint.
    #[inline]
    pub fn has_breakpoint(&self, address: u16) -> bool
        ensures { result ≡ has_breakpoint self.now address }
    {
        self.breakpoints.has(address)
    }

    /// Sets a breakpoint; a second time changes nothing. Refused where 64 others are set.
    pub fn break_at(&mut self, address: u16) -> Result<(), Full>
        ensures { IsSet self.old address (has_breakpoint self.old address) result self.new }
    {
        if self.has_breakpoint(address) {
            return Ok(());
        }
        self.breakpoints.add(address)
    }

    /// Takes a breakpoint away, if it is set.
    pub fn unbreak(&mut self, address: u16)
        ensures { self.new ≡ without_breakpoint self.old address }
    {
        self.breakpoints.remove(address);
    }

    /// Keeps this index in a slot, 0 to 3.
    pub fn keep(&mut self, slot: usize)
        requires slot { slot < slot_count }
        requires nothing { self.old.due ≡ state.nothing_due }
        ensures { self.new ≡ session_with_slot self.old slot }
    {
        let slot = &mut self.slots[slot];
        slot.kept.write(&self.board, &self.history);
        slot.filled = true;
    }

    /// Goes to the index that a slot keeps, 0 to 3; no step is done again. Refused where the slot is empty.
    pub fn go_to(&mut self, slot: usize) -> Result<(), Empty>
        requires slot { slot < slot_count }
        requires nothing { self.old.due ≡ state.nothing_due }
        ensures { ReturnsTo self.old (slice_index_or self.old.slots slot None) result self.new }
    {
        let slot = &self.slots[slot];
        if !slot.filled {
            return Err(Empty);
        }
        slot.kept.put_back(&mut self.board, &mut self.history);
        Ok(())
    }

    /// The course of the run, from the session's index on.
    pub(crate) fn into_course(self) -> Course
        ensures { result ≡ course_of self }
    {
        let Session {
            board,
            script,
            switches: _,
            limit: _,
            furthest: _,
            breakpoints: _,
            history: _,
            checkpoints: _,
            slots: _,
            replayed: _,
        } = self;
        Course::taken_up(board, script, 0)
    }
}

/// The slot is empty.
#[derive(Clone, Copy, Debug)]
pub struct Empty;
