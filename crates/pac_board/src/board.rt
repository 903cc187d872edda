//! The board and the calls that make no step.

ghost use Rattle.std.specs.Prelude.{◌≡◌, ◌≤◌, ◌+◌, IfOk, IfErr, IfSome};
ghost use Rattle.pac_map.specs.Inputs.{mask};
ghost use Rattle.pac_map.specs.Contents.{read_of};
ghost use Rattle.pac_map.specs.RomParts.{IsWhole};
ghost use Rattle.pac_map.specs.PartsProofs.{parts_of, zero_parts};
ghost use Rattle.pac_map.specs.View.{held_with, held_without};
ghost use Rattle.pac_picture.specs.State.{palette_of};
ghost use Rattle.pac_machine.specs.Idle.{IsIdleLimit};
ghost use Rattle.pac_board.specs.State as state;
ghost use Rattle.pac_board.specs.StateLaws as state_laws;

use crate::fault::InitRefused;
use pac_cpu::Regs;
use pac_machine::{Due, Machine};
use pac_map::{Inputs, Raw, RomSet};
use pac_picture::Picture;
use std::alloc::{AllocError, Global};
use std::marker::Model;

/// The main board (Namco Pac-Man service schematics). Clauses see its ROM set, its state, and the count of the steps
/// that it did since it was made.
#[derive(Drop)]
pub struct Board {
    pub(crate) machine: Machine,
    pub(crate) asked: u64,
    pub(crate) due: Due,
    /// The steps that it did before its machine's count of steps was last set.
    pub(crate) made: u64,
    /// The count that was set then.
    pub(crate) since: u64,
}

impl Model for Board {
    ghost use Rattle.std.specs.Prelude.{◌≤◌, ◌-◌};
    ghost use Rattle.pac_board.specs.State.{BoardValue, most_asked, steps_counted};

    ghost Value = { BoardValue };

    ghost view = { λ board. record {
      set = board.machine.set;
      state = record { now = board.machine.now; asked = board.asked; due = board.due };
      made = steps_counted board.made (board.machine.now.steps - board.since);
    } };

    ghost invariant = { λ board. record {
      asked : board.asked ≤ most_asked;
      since : board.since ≤ board.machine.now.steps;
    } };
}

impl Board {
    /// The board at power-on with ROMs of zeros, over which others are put, and the byte of the DIP switches. Takes no memory.
    pub fn without_roms(switches: u8) -> Board
        ensures { result ≡ state.power_on_board zero_parts switches }
    {
        Board {
            machine: Machine::without_roms(switches),
            asked: 0,
            due: Due::NOTHING,
            made: 0,
            since: 0,
        }
    }

    /// Takes other ROMs, in place: a program of 16,384 bytes, and the other parts.
    #[inline(always)]
    pub fn put_roms(&mut self, program: &[u8], raw: &Raw)
        requires { IsWhole (parts_of program.now raw.now) }
        ensures { self.new ≡ record self.old { set = parts_of program.now raw.now } }
    {
        self.machine.put_roms(program, raw);
    }

    /// The board at power-on with this ROM set and the byte of the DIP switches, in a block of memory. Refused for want of memory alone;
    /// the set comes back then.
    pub fn init(alloc: Global, set: RomSet, switches: u8) -> Result<Box<Board>, InitRefused>
        ensures board { IfOk result (λ board. board.value ≡ state.power_on_board set switches) }
        ensures refused { IfErr result (λ refused. refused.set ≡ set) }
    {
        match Board::boxed(alloc, &set, switches) {
            Ok(board) => Ok(board),
            Err(_) => Err(InitRefused { set }),
        }
    }

    /// The board at power-on with a copy of this ROM set and the byte of the DIP switches, in a block of memory, where all of it is made: no
    /// caller has room for a board on its stack. Refused for want of memory alone.
    #[inline(never)]
    pub fn boxed(alloc: Global, set: &RomSet, switches: u8) -> Result<Box<Board>, AllocError>
        ensures { IfOk result (λ board. board.value ≡ state.power_on_board set.now switches) }
    {
        let mut board = Box::new(alloc, Board::without_roms(switches))?;
        let raw = Raw {
            tiles: set.tiles(),
            sprites: set.sprites(),
            colours: set.colours(),
            lookup: set.lookup(),
            wave: set.wave(),
        };
        board.put_roms(set.program(), &raw);
        Ok(board)
    }

    /// Resets the board as the watchdog does: latch, request, count and processor. Time, steps, what is due and the
    /// picture stay.
    pub fn reset(&mut self)
        ensures { self.new ≡ state.board_after_reset self.old }
    {
        self.machine.reset();
    }

    /// Holds these inputs too from now on.
    pub fn input_set(&mut self, inputs: Inputs)
        ensures { self.new ≡ state.board_with_inputs self.old
            (held_with self.old.state.now.board.memory.held (mask inputs)) }
    {
        self.machine.input_set(inputs);
    }

    /// Lets these inputs go.
    pub fn input_clear(&mut self, inputs: Inputs)
        ensures { self.new ≡ state.board_with_inputs self.old
            (held_without self.old.state.now.board.memory.held (mask inputs)) }
    {
        self.machine.input_clear(inputs);
    }

    /// Counts these microseconds as asked, and makes no step: for a caller that goes by time or by steps where another one calls `exec`.
    pub fn count_asked(&mut self, microseconds: u64)
        requires { self.old.state.asked + microseconds ≤ state.most_asked }
        ensures { self.new ≡ state_laws.with_more_asked self.old microseconds }
    {
        self.asked += microseconds;
    }

    /// Forgets of the microseconds asked in all what is over these. No step is made or undone: for a caller that met a stop, and doesn't want
    /// the time that was asked past it.
    pub fn forget_asked(&mut self, most: u64)
        ensures { self.new ≡ state_laws.with_asked_at_most self.old most }
    {
        self.asked = self.asked.min(most);
    }

    /// The picture as it stands.
    pub fn picture(&self) -> &Picture
        ensures lines { result.now.lines ≡ self.now.state.now.board.lines }
        ensures palette { result.now.palette ≡ palette_of self.now.set.colours }
    {
        self.machine.picture()
    }

    /// The registers.
    pub fn regs(&self) -> Regs
        ensures { result ≡ self.now.state.now.regs }
    {
        self.machine.regs()
    }

    /// The time since power-on, in T-states.
    #[inline]
    pub fn time(&self) -> u64
        ensures time { result ≡ self.now.state.now.time }
        ensures bound { self.now.state.now.time ≤ state.latest_end }
    {
        self.machine.time()
    }

    /// The steps since power-on.
    #[inline]
    pub fn steps(&self) -> u64
        ensures { result ≡ self.now.state.now.steps }
    {
        self.machine.steps()
    }

    /// The steps that this board did since it was made, staying at 2^64 - 1. No call puts it back.
    #[inline]
    pub fn made(&self) -> u64
        ensures { result ≡ self.now.made }
    {
        self.made.saturating_add(self.machine.steps() - self.since)
    }

    /// A time before which no more than so many steps begin, nor any past the blank, where the processor goes around an idle loop.
    #[inline]
    pub fn idle_limit(&self, most: u64) -> Option<u64>
        ensures { IfSome result (λ limit. IsIdleLimit
            (record { set = self.now.set; now = self.now.state.now }) most limit) }
    {
        self.machine.idle_limit(most)
    }

    /// The byte that the processor would read at an address.
    #[inline]
    pub fn peek(&self, at: u16) -> u8
        ensures { result ≡ read_of self.now.set.program self.now.state.now.board.memory at }
    {
        self.machine.peek(at)
    }

    /// The ROM set.
    #[inline]
    pub fn set(&self) -> &RomSet
        ensures { result.now ≡ self.now.set }
    {
        self.machine.set()
    }
}
