//! A machine that is made with its sockets empty, and the ROMs that are put into them: so none of its large parts is moved.

ghost use Rattle.std.specs.Prelude.{◌≡◌};
ghost use Rattle.pac_map.specs.RomParts.{IsWhole};
ghost use Rattle.pac_map.specs.PartsProofs.{parts_of, zero_parts};
ghost use Rattle.pac_board_model.specs.BoardView.{power_on_board_view};
ghost use Rattle.pac_board_model.specs.Trace.{power_on_moment};

use crate::machine::Machine;
use pac_cpu::Cpu;
use pac_map::{Map, Memory, Raw, RomSet};
use pac_picture::Picture;
use pac_wave::{Settings, Wave};

impl Machine {
    /// The machine at power-on with ROMs of zeros, over which others are put, and the byte of the DIP switches.
    pub fn without_roms(switches: u8) -> Machine
        ensures { result ≡ record {
          set = zero_parts;
          now = power_on_moment (power_on_board_view switches);
        } }
    {
        Machine {
            cpu: Cpu::power_on(),
            map: Map {
                set: RomSet::zeroed(),
                memory: Memory::new(switches),
                look: 0,
            },
            wave: Wave::new(),
            settings: Settings::of(&[0; 256], &[0; 32]),
            picture: Picture::zeroed(),
            clock: 0,
            steps: 0,
        }
    }

    /// Takes other ROMs, in place: a program, and the other parts.
    #[inline(always)]
    pub fn put_roms(&mut self, program: &[u8], raw: &Raw)
        requires { IsWhole (parts_of program.now raw.now) }
        ensures { self.new ≡ record { set = parts_of program.now raw.now; now = self.old.now } }
    {
        self.map.set.put(program, raw);
        let set = &self.map.set;
        self.picture
            .put_roms(set.tiles(), set.sprites(), set.lookup(), set.colours());
        self.settings.put_prom(set.wave());
    }
}
