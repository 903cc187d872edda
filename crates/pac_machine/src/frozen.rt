//! The moment that a machine stands at, kept beside it.

ghost use Rattle.std.specs.Prelude.{◌≡◌};
ghost use Rattle.pac_picture.specs.Layer.{AreStale};
ghost use Rattle.pac_board_model.specs.Trace.{power_on_moment};
ghost use Rattle.pac_board_model.specs.BoardView.{power_on_board_view};

use crate::machine::Machine;
use pac_cpu::Cpu;
use pac_map::Memory;
use pac_picture::{PackedLines, Picture};
use pac_wave::Wave;
use std::marker::Model;

/// A moment that is kept: registers, memory, voices, lines of the picture, and time.
#[derive(Drop)]
pub struct Frozen {
    cpu: Cpu,
    memory: Memory,
    wave: Wave,
    lines: PackedLines,
    clock: u64,
    steps: u64,
}

impl Model for Frozen {
    ghost use Rattle.std.specs.Prelude.{◌≤◌, ◌<◌, ◌*◌};
    ghost use Rattle.pac_map.specs.Latched.{watchdog_limit};
    ghost use Rattle.pac_cpu.specs.Instructions.{least_ticks};
    ghost use Rattle.pac_board_model.specs.Step.{Moment};
    ghost use Rattle.pac_board_model.specs.BoardView.{BoardView};
    ghost use Rattle.pac_machine.specs.Standing.{latest_end};

    ghost Value = { Moment BoardView };

    ghost view = { λ frozen. record {
      regs = frozen.cpu;
      board = record { memory = frozen.memory; accumulators = frozen.wave; lines = frozen.lines };
      time = frozen.clock;
      steps = frozen.steps;
    } };

    ghost invariant = { λ frozen. record {
      steps : least_ticks * frozen.steps ≤ frozen.clock;
      time : frozen.clock ≤ latest_end;
      count : frozen.memory.latched.count < watchdog_limit;
    } };
}

impl Frozen {
    /// The moment of power-on, all DIP switches 0.
    #[inline(always)]
    pub fn new() -> Frozen
        ensures { result ≡ power_on_moment (power_on_board_view 0) }
    {
        Frozen {
            cpu: Cpu::power_on(),
            memory: Memory::new(0),
            wave: Wave::new(),
            lines: PackedLines::new(),
            clock: 0,
            steps: 0,
        }
    }
}

/// Takes the lines of a moment that was kept; every cell counts as differing then, so each is drawn again when it is first composed.
fn bring_back(picture: &mut Picture, frozen: &Frozen)
    ensures lines { picture.new
        ≡ record picture.old { lines = frozen.now.board.lines; shadows = picture.new.shadows } }
    ensures stale { AreStale picture.new.shadows }
{
    picture.unpack(&frozen.lines);
}

impl Machine {
    /// Writes the moment over one that was kept.
    pub fn freeze(&self, frozen: &mut Frozen)
        ensures { frozen.new ≡ self.now.now }
    {
        frozen.cpu = Cpu::with_regs(self.cpu.regs());
        frozen.memory.copy_from(&self.map.memory);
        frozen.wave.copy_from(&self.wave);
        frozen.lines.pack(self.picture.lines());
        frozen.clock = self.clock;
        frozen.steps = self.steps;
    }

    /// Goes back to a moment that was kept.
    pub fn thaw(&mut self, frozen: &Frozen)
        ensures { self.new ≡ record { set = self.old.set; now = frozen.now } }
    {
        self.cpu = Cpu::with_regs(frozen.cpu.regs());
        self.map.memory.copy_from(&frozen.memory);
        self.wave.copy_from(&frozen.wave);
        bring_back(&mut self.picture, frozen);
        self.clock = frozen.clock;
        self.steps = frozen.steps;
    }
}
