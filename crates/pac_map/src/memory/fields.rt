//! The board's memory made from its fields, told by them, and written over by another's.

ghost use Rattle.std.specs.Prelude.{◌≡◌, ◌↔◌, true, length};
ghost use Rattle.pac_map.specs.FieldsProofs.{AreMemoryFields};
ghost use Rattle.pac_map.specs.Fields.{view_of_fields};
ghost use Rattle.pac_map.specs.View.{HoldWhatTheyCan};

use super::{Memory, kept};
use pac_inputs::Inputs;
use pac_latch::Latch;

/// The fields of the board's memory, as a save file has them.
#[derive(Clone, Copy)]
pub struct MemoryFields<'a> {
    /// The tile RAM.
    pub tile: &'a [u8; 1024],
    /// The colour RAM.
    pub colour: &'a [u8; 1024],
    /// The work RAM.
    pub work: &'a [u8; 1024],
    /// The sprites' coordinates.
    pub coordinates: [u8; 16],
    /// The wave generator's registers, four bits each; those that are ignored are 0.
    pub registers: [u8; 32],
    /// The output latch.
    pub latch: u8,
    /// The interrupt vector.
    pub vector: u8,
    /// Whether a request stands.
    pub requested: bool,
    /// The vertical blanks since the watchdog was last kicked, at most 16.
    pub count: u8,
    /// The inputs held.
    pub held: Inputs,
    /// The byte that the DIP switches give.
    pub switches: u8,
}

/// Whether each register of the wave generator holds what it can.
fn hold_what_they_can(registers: &[u8; 32]) -> bool
    ensures { (result ≡ true) ↔ HoldWhatTheyCan registers.now }
{
    for register in 0..32u8 {
        let byte = registers[register as usize];
        if kept(register, byte) != byte {
            return false;
        }
    }
    true
}

impl MemoryFields<'_> {
    /// Whether a board can have these fields: each register of the wave generator holds what it can, and the watchdog's
    /// count is at most 16.
    pub fn are_in_range(&self) -> bool
        ensures { (result ≡ true) ↔ AreMemoryFields self.now }
    {
        self.count <= 16 && hold_what_they_can(&self.registers)
    }
}

/// A copy of N bytes of RAM.
#[inline]
fn copied<const N: usize>(bytes: &[u8; N]) -> [u8; N]
    ensures bytes { result ≡ bytes.now }
    ensures size { length bytes.now ≡ N }
{
    *bytes
}

impl Memory {
    /// The memory of these fields: each register holds what it can, and the count is in its range.
    pub fn of(fields: &MemoryFields) -> Memory
        requires { AreMemoryFields fields.now }
        ensures { result ≡ view_of_fields fields.now }
    {
        Memory {
            switches: fields.switches,
            held: fields.held,
            tile: copied(fields.tile),
            colour: copied(fields.colour),
            work: copied(fields.work),
            coordinates: fields.coordinates,
            registers: fields.registers,
            latch: Latch::of(fields.latch, fields.vector, fields.requested, fields.count),
        }
    }

    /// The fields of the memory.
    pub fn fields(&self) -> MemoryFields
        ensures fields { view_of_fields result ≡ self.now }
        ensures in_range { AreMemoryFields result }
    {
        MemoryFields {
            tile: &self.tile,
            colour: &self.colour,
            work: &self.work,
            coordinates: self.coordinates,
            registers: self.registers,
            latch: self.latch.bits(),
            vector: self.latch.vector(),
            requested: self.latch.is_requested(),
            count: self.latch.count(),
            held: self.held,
            switches: self.switches,
        }
    }

    /// Becomes a copy of another memory. Takes no memory.
    pub fn copy_from(&mut self, other: &Memory)
        ensures { self.new ≡ other.now }
    {
        self.switches = other.switches;
        self.held = other.held;
        self.tile = other.tile;
        self.colour = other.colour;
        self.work = other.work;
        self.coordinates = other.coordinates;
        self.registers = other.registers;
        self.latch.copy_from(&other.latch);
    }
}
