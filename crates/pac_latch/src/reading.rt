//! What the latch answers.

ghost use Rattle.std.specs.Prelude.{◌≡◌, ◌≤◌, ◌<◌};
ghost use Rattle.pac_latch.specs.Latched as spec;

use crate::{FLIP, Latch, SOUND_ENABLE};

/// A bit of the latch as a binary digit.
#[inline]
fn digit(bit: bool) -> u8
    ensures value { result ≡ spec.binary_digit bit }
    ensures below { result < 2 }
{
    u8::from(bit)
}

impl Latch {
    /// The latch as one byte.
    pub fn bits(&self) -> u8
        ensures byte { result ≡ spec.byte_of_latch self.now.bits }
        ensures bits { self.now.bits ≡ spec.bits_of result }
    {
        digit(self.bits[0])
            + 2 * digit(self.bits[1])
            + 4 * digit(self.bits[2])
            + 8 * digit(self.bits[3])
            + 16 * digit(self.bits[4])
            + 32 * digit(self.bits[5])
            + 64 * digit(self.bits[6])
            + 128 * digit(self.bits[7])
    }

    /// Whether a bit of the latch is 1; its place is taken modulo 8.
    #[inline]
    pub fn is_set(&self, place: u8) -> bool
        ensures { result ≡ spec.is_latch_bit_set self.now place }
    {
        self.bits[place as usize % 8]
    }

    /// Whether the wave generator sounds.
    #[inline]
    pub fn is_sounding(&self) -> bool
        ensures { result ≡ self.now.bits.sound_enable }
    {
        self.is_set(SOUND_ENABLE)
    }

    /// Whether the picture is flipped.
    #[inline]
    pub fn is_flipped(&self) -> bool
        ensures { result ≡ self.now.bits.flip }
    {
        self.is_set(FLIP)
    }

    /// The interrupt vector, whether or not a request stands.
    #[inline]
    pub fn vector(&self) -> u8
        ensures { result ≡ self.now.vector }
    {
        self.vector
    }

    /// Whether a request stands.
    #[inline]
    pub fn is_requested(&self) -> bool
        ensures { result ≡ self.now.request }
    {
        self.requested
    }

    /// The interrupt vector where a request stands.
    #[inline]
    pub fn request(&self) -> Option<u8>
        ensures { result ≡ spec.interrupt_request self.now }
    {
        if self.requested {
            Some(self.vector)
        } else {
            None
        }
    }

    /// The vertical blanks since the watchdog was last kicked, 0 to 16.
    #[inline]
    pub fn count(&self) -> u8
        ensures count { result ≡ self.now.count }
        ensures at_most { result ≤ spec.watchdog_limit }
    {
        self.count
    }
}
