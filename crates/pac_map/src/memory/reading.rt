//! What processor, picture, sound and a save file ask of the board's memory.

ghost use Rattle.std.specs.Prelude.{◌≡◌};
ghost use Rattle.pac_inputs.specs.Inputs.{mask};
ghost use Rattle.pac_latch.specs.Latched.{interrupt_request};
ghost use Rattle.pac_map.specs.View as spec;
ghost use Rattle.pac_map.specs.View.{IsWellFormed};

use super::Memory;
use pac_inputs::Inputs;
use pac_latch::Latch;

impl Memory {
    /// The interrupt vector where a request stands.
    #[inline]
    pub fn request(&self) -> Option<u8>
        ensures { result ≡ interrupt_request self.now.latched }
    {
        self.latch.request()
    }

    /// The output latch, with the vector, the request and the watchdog's count.
    #[inline]
    pub fn latch(&self) -> &Latch
        ensures { result.now ≡ self.now.latched }
    {
        &self.latch
    }

    /// The tile RAM, 1,024 bytes.
    #[inline]
    pub fn tile_ram(&self) -> &[u8]
        ensures bytes { result.now ≡ self.now.tile }
        ensures well_formed { IsWellFormed self.now }
    {
        &self.tile[..]
    }

    /// The colour RAM, 1,024 bytes.
    #[inline]
    pub fn colour_ram(&self) -> &[u8]
        ensures bytes { result.now ≡ self.now.colour }
        ensures well_formed { IsWellFormed self.now }
    {
        &self.colour[..]
    }

    /// The work RAM, 1,024 bytes, of which the last 16 are the sprites' attributes.
    #[inline]
    pub fn work_ram(&self) -> &[u8]
        ensures bytes { result.now ≡ self.now.work }
        ensures well_formed { IsWellFormed self.now }
    {
        &self.work[..]
    }

    /// The sprites' attributes, two bytes each.
    #[inline]
    pub fn attributes(&self) -> &[u8]
        ensures bytes { result.now ≡ spec.sprite_attributes self.now }
        ensures well_formed { IsWellFormed self.now }
    {
        &self.work[0x3F0..]
    }

    /// The sprites' coordinates, two bytes each.
    #[inline]
    pub fn coordinates(&self) -> &[u8; 16]
        ensures { result.now ≡ self.now.coordinates }
    {
        &self.coordinates
    }

    /// The wave generator's registers, four bits each; those that are ignored are 0.
    #[inline]
    pub fn registers(&self) -> &[u8; 32]
        ensures registers { result.now ≡ self.now.registers }
        ensures well_formed { IsWellFormed self.now }
    {
        &self.registers
    }

    /// The byte that the DIP switches give.
    #[inline]
    pub fn switches(&self) -> u8
        ensures { result ≡ self.now.switches }
    {
        self.switches
    }

    /// The inputs held.
    #[inline]
    pub fn held(&self) -> Inputs
        ensures { mask result ≡ self.now.held }
    {
        self.held
    }
}
