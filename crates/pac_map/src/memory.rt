//! What the board keeps beside its ROMs: the three RAMs, the sprites' coordinates, the wave generator's registers, the
//! output latch, the switches and the inputs held.

ghost use Rattle.std.specs.Prelude.{◌≡◌, ◌%◌, ◌==◌, ℕ, length};
ghost use Rattle.pac_inputs.specs.Inputs.{mask};
ghost use Rattle.pac_latch.specs.Latched.{is_watchdog_due, latched_after_bit};
ghost use Rattle.pac_map.specs.Cleared.{zero_ram};
ghost use Rattle.pac_map.specs.Contents.{lookups_of, read_of};
ghost use Rattle.pac_map.specs.Entry.{Vector, Blank, Accept, Reset, Hold, view_after_write};
ghost use Rattle.pac_map.specs.Entry.{view_after};
ghost use Rattle.pac_map.specs.Lookups.{answer};
ghost use Rattle.pac_map.specs.PlaceProofs.{IsPlaceInRange};
ghost use Rattle.pac_map.specs.View as spec;

mod fields;
mod reading;

use crate::{BusPlace, read_place};
pub use fields::MemoryFields;
use pac_inputs::{Flags, Inputs};
use pac_latch::Latch;
use std::marker::Model;

/// The board's RAMs and registers, its switches and the inputs held (Namco Pac-Man service schematics). Clauses see them
/// as plain data.
#[derive(Drop)]
pub struct Memory {
    switches: u8,
    held: Inputs,
    tile: [u8; 1024],
    colour: [u8; 1024],
    work: [u8; 1024],
    coordinates: [u8; 16],
    registers: [u8; 32],
    latch: Latch,
}

impl Model for Memory {
    ghost use Rattle.pac_inputs.specs.Inputs.{mask};
    ghost use Rattle.pac_map.specs.View.{View, IsWellFormed};

    ghost Value = { View };

    ghost view = { λ memory. record {
      switches = memory.switches;
      held = mask memory.held;
      tile = memory.tile;
      colour = memory.colour;
      work = memory.work;
      coordinates = memory.coordinates;
      registers = memory.registers;
      latched = memory.latch;
    } };

    ghost invariant = { λ memory. IsWellFormed (record {
      switches = memory.switches;
      held = mask memory.held;
      tile = memory.tile;
      colour = memory.colour;
      work = memory.work;
      coordinates = memory.coordinates;
      registers = memory.registers;
      latched = memory.latch;
    }) };
}

/// N bytes, all 0.
#[tactic(auto, unfolding(crate::specs::Cleared::zero_ram))]
fn zeros<const N: usize>() -> [u8; N]
    ensures { result ≡ zero_ram N }
{
    [0; N]
}

/// Whether the wave generator keeps what is written to a register.
#[inline]
fn is_kept(register: u8) -> bool
    ensures { result ≡ spec.is_kept register }
{
    register >= 0x10 || register == 0x05 || register == 0x0A || register == 0x0F
}

/// What a register of the wave generator holds of a byte.
#[inline]
fn kept(register: u8, byte: u8) -> u8
    ensures { result ≡ spec.kept_nibble register byte }
{
    if is_kept(register) { byte % 16 } else { 0 }
}

/// Writes the lowest bit of a byte to a bit of the latch.
#[inline]
fn write_latch(latch: &mut Latch, place: u8, byte: u8)
    ensures { latch.new ≡ latched_after_bit latch.old place (byte % 2 == 1) }
{
    latch.write_bit(place, byte % 2 == 1);
}

impl Memory {
    /// All 0 as at power-on, no input held, and the byte that the DIP switches give.
    pub fn new(switches: u8) -> Memory
        ensures { result ≡ spec.power_on_view switches }
    {
        Memory {
            switches,
            held: Inputs::from_bits_retain(0),
            tile: zeros::<1024>(),
            colour: zeros::<1024>(),
            work: zeros::<1024>(),
            coordinates: zeros::<16>(),
            registers: zeros::<32>(),
            latch: Latch::new(),
        }
    }

    /// The byte that a place gives, with the program ROM's 16,384 bytes.
    #[inline(always)]
    pub(crate) fn byte_of(&self, program: &[u8; 16384], place: BusPlace) -> u8
        requires place { IsPlaceInRange place }
        ensures { result ≡ answer (lookups_of program.now self.now) place }
    {
        match place {
            BusPlace::Program(cell) => program[cell as usize],
            BusPlace::Tile(cell) => self.tile[cell as usize],
            BusPlace::Colour(cell) => self.colour[cell as usize],
            BusPlace::Work(cell) => self.work[cell as usize],
            BusPlace::Nothing => 0xBF,
            BusPlace::Inputs0 => self.held.in0(),
            BusPlace::Inputs1 => self.held.in1(),
            BusPlace::Switches => self.switches,
            _ => 0xFF,
        }
    }

    /// The byte that the processor reads at an address, with the program ROM's 16,384 bytes.
    #[inline]
    pub fn read(&self, program: &[u8; 16384], address: u16) -> u8
        ensures { result ≡ read_of program.now self.now address }
    {
        self.byte_of(program, read_place(address))
    }

    /// Writes a byte to a place.
    #[inline(always)]
    pub(crate) fn write(&mut self, place: BusPlace, byte: u8)
        requires { IsPlaceInRange place }
        ensures { self.new ≡ view_after_write self.old place byte }
    {
        match place {
            BusPlace::Tile(cell) => self.tile[cell as usize] = byte,
            BusPlace::Colour(cell) => self.colour[cell as usize] = byte,
            BusPlace::Work(cell) => self.work[cell as usize] = byte,
            BusPlace::Coordinate(place) => self.coordinates[place as usize] = byte,
            BusPlace::Wave(register) => self.registers[register as usize] = kept(register, byte),
            BusPlace::Latch(place) => write_latch(&mut self.latch, place, byte),
            BusPlace::Kick => self.latch.kick(),
            _ => {}
        }
    }

    /// Sets the interrupt vector.
    #[inline]
    pub fn set_vector(&mut self, byte: u8)
        ensures { self.new ≡ view_after self.old (Vector byte) }
    {
        self.latch.set_vector(byte);
    }

    /// The processor's acceptance of an interrupt: the request is met.
    #[inline]
    pub fn accept(&mut self)
        ensures { self.new ≡ view_after self.old Accept }
    {
        self.latch.accept();
    }

    /// The vertical blank that ends a frame: a request where interrupts are enabled, then the watchdog's count. Answers
    /// whether the watchdog resets the board now.
    #[inline]
    pub fn blank(&mut self) -> bool
        ensures view { (frame : ℕ) → self.new ≡ view_after self.old (Blank frame) }
        ensures due { result ≡ is_watchdog_due self.new.latched }
    {
        self.latch.blank()
    }

    /// A reset of the board: latch, request and count are cleared, and all else stays.
    #[inline]
    pub fn reset(&mut self)
        ensures { self.new ≡ view_after self.old Reset }
    {
        self.latch.reset();
    }

    /// Holds these inputs, and no others, from now on.
    #[inline]
    pub fn hold(&mut self, inputs: Inputs)
        ensures { self.new ≡ view_after self.old (Hold (mask inputs)) }
    {
        self.held = inputs;
    }

    /// Holds these inputs too from now on.
    #[inline]
    pub fn input_set(&mut self, inputs: Inputs)
        ensures { self.new ≡ view_after self.old
            (Hold (spec.held_with self.old.held (mask inputs))) }
    {
        self.held.insert(inputs);
    }

    /// Lets these inputs go.
    #[inline]
    pub fn input_clear(&mut self, inputs: Inputs)
        ensures { self.new ≡ view_after self.old
            (Hold (spec.held_without self.old.held (mask inputs))) }
    {
        self.held.remove(inputs);
    }
}
