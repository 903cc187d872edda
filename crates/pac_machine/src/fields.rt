//! A machine made from the fields of a board, as a save file has them, and told by them.

ghost use Rattle.std.specs.Prelude.{◌≡◌, ◌≤◌, ◌<◌, ◌↔◌, true, length};
ghost use Rattle.pac_wave.specs.Wave.{Fit20Bits};
ghost use Rattle.pac_wave.specs.WaveLaws.{accumulators_of_list};
ghost use Rattle.pac_map.specs.RomParts.{IsWhole};
ghost use Rattle.pac_map.specs.PartsProofs.{parts_of};
ghost use Rattle.pac_machine.specs.Standing.{most_asked, passed_lines, recomposed_view};
ghost use Rattle.pac_machine.specs.Fields.{moment_of, state_of, AreBoardFields};

use crate::due::Due;
use crate::machine::Machine;
use crate::timing::passed_lines;
use pac_cpu::{Cpu, Regs};
use pac_map::{Memory, Raw};
use pac_picture::{RawLines, is_picture};
use pac_wave::Wave;

/// The fields of a board's state, as a save file has them.
#[derive(Clone, Copy)]
pub struct Fields<'a> {
    /// The registers.
    pub regs: Regs,
    /// The time since power-on, in T-states, at most 2^52 + 22.
    pub time: u64,
    /// The steps since power-on, each of which takes 4 T-states at least.
    pub steps: u64,
    /// The microseconds asked for so far, at most 2^50.
    pub asked: u64,
    /// RAM and registers, latch, switches and inputs; the watchdog's count is below 16.
    pub memory: pac_map::MemoryFields<'a>,
    /// The voices' accumulators, each below 2^20.
    pub accumulators: [u32; 3],
    /// What is due.
    pub due: Due,
    /// The lines of the picture as they were last composed, of colour numbers alone.
    pub lines: &'a RawLines,
}

/// Whether accumulators hold what they can.
fn fit(accumulators: &[u32; 3]) -> bool
    ensures { (result ≡ true) ↔ Fit20Bits (accumulators_of_list accumulators.now) }
{
    accumulators[0] < 0x10_0000 && accumulators[1] < 0x10_0000 && accumulators[2] < 0x10_0000
}

/// The time, in T-states, at which the latest step has ended (this profile).
const LATEST_END: u64 = (1 << 52) + 22;

/// The most microseconds that are asked of a board (this profile).
pub const MOST_ASKED: u64 = 1 << 50;

impl Fields<'_> {
    /// Whether a board can have these fields: each is in its range.
    pub fn are_in_range(&self) -> bool
        ensures { (result ≡ true) ↔ AreBoardFields self.now }
    {
        self.memory.are_in_range()
            && self.memory.count < 16
            && fit(&self.accumulators)
            && self.steps <= self.time / 4
            && self.time <= LATEST_END
            && self.asked <= MOST_ASKED
            && is_picture(self.lines)
    }
}

impl Machine {
    /// Becomes the machine of these fields, in place; its ROM set stays.
    #[inline(always)]
    pub fn put_fields(&mut self, fields: &Fields)
        requires { AreBoardFields fields.now }
        ensures { self.new ≡ record { set = self.old.set; now = moment_of fields.now } }
    {
        self.picture.copy_from(fields.lines);
        self.put_others(fields);
    }

    /// Becomes the machine of these ROMs and fields, in place. ROMs and lines are copied before anything is called: so where a machine has just been
    /// made, and all is one function once it's compiled, no zeros are written below them.
    #[inline(always)]
    pub fn put_all(&mut self, program: &[u8], raw: &Raw, fields: &Fields)
        requires whole { IsWhole (parts_of program.now raw.now) }
        requires in_range { AreBoardFields fields.now }
        ensures { self.new ≡ record {
          set = parts_of program.now raw.now;
          now = moment_of fields.now;
        } }
    {
        self.map.set.put(program, raw);
        self.picture.copy_from(fields.lines);
        let set = &self.map.set;
        self.picture
            .put_roms(set.tiles(), set.sprites(), set.lookup(), set.colours());
        self.settings.put_prom(set.wave());
        self.put_others(fields);
    }

    /// Becomes the machine of these fields, in place, where their lines are there already.
    #[inline(always)]
    fn put_others(&mut self, fields: &Fields)
        requires { AreBoardFields fields.now }
        ensures set { self.new.set ≡ self.old.set }
        ensures now { self.old.now.board.lines ≡ fields.now.lines.now →
            self.new.now ≡ moment_of fields.now }
    {
        self.cpu = Cpu::with_regs(fields.regs);
        self.map.memory = Memory::of(&fields.memory);
        self.wave = Wave::of(fields.accumulators);
        self.clock = fields.time;
        self.steps = fields.steps;
    }

    /// The fields, with the microseconds asked for and what is due.
    pub fn fields(&self, asked: u64, due: Due) -> Fields
        requires { asked ≤ most_asked }
        ensures fields { state_of result ≡ record { now = self.now.now; asked = asked; due = due } }
        ensures in_range { AreBoardFields result }
    {
        Fields {
            regs: self.cpu.regs(),
            time: self.clock,
            steps: self.steps,
            asked,
            memory: self.map.memory.fields(),
            accumulators: self.wave.accumulators(),
            due,
            lines: self.picture.lines().raw(),
        }
    }

    /// Composes the lines that have passed since the last blank from what the memory keeps now.
    pub fn recompose(&mut self)
        ensures { self.new ≡ record {
          set = self.old.set;
          now = record self.old.now {
            board = recomposed_view self.old.set self.old.now.board
                (passed_lines self.old.now.time);
          };
        } }
    {
        // the contract of reading any row tells that all of them are there
        let _top = self.picture.row(0);
        self.compose_lines(0, passed_lines(self.clock));
    }
}
