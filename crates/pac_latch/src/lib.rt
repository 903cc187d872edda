//! The board's output latch, its interrupt vector and request, and the watchdog's count of vertical blanks.
#![tactic(auto)]

ghost use Rattle.std.specs.Prelude.{◌≡◌, ◌≢◌, ◌≤◌, ◌<◌, ◌/◌, ◌%◌, ◌==◌, ℕ};
ghost use Rattle.pac_latch.specs.Latched.{power_on_latched, latched_of, latched_after_bit};
ghost use Rattle.pac_latch.specs.Latched.{latched_after_vector, latched_after_kick};
ghost use Rattle.pac_latch.specs.Latched.{latched_after_accept, latched_after_reset};
ghost use Rattle.pac_latch.specs.Latched.{latched_after_blank};
ghost use Rattle.pac_latch.specs.Latched as spec;

mod reading;

use std::marker::Model;

/// The latch's bit that lets a vertical blank ask for an interrupt.
const INTERRUPT_ENABLE: u8 = 0;

/// The latch's bit that lets the wave generator sound.
const SOUND_ENABLE: u8 = 1;

/// The latch's bit that flips the picture.
const FLIP: u8 = 3;

/// The count of vertical blanks without a kick at which the watchdog resets the board.
const WATCHDOG_LIMIT: u8 = 16;

/// The output latch's eight bits, the interrupt vector, the interrupt request and the watchdog's count (Namco
/// Pac-Man service schematics). Bits 0, 1 and 3 let interrupts be asked for, let the sound out and flip the picture;
/// bit 2 (auxiliary), 4 and 5 (lamps), 6 (coin lockout) and 7 (coin counter) are only kept.
#[derive(Drop)]
pub struct Latch {
    bits: [bool; 8],
    vector: u8,
    requested: bool,
    count: u8,
}

impl Model for Latch {
    ghost use Rattle.std.specs.Prelude.{◌≤◌};
    ghost use Rattle.pac_latch.specs.Latched.{Latched, latch_of_bits, watchdog_limit};

    ghost Value = { Latched };

    ghost view = { λ latch. record {
      bits = latch_of_bits latch.bits;
      vector = latch.vector;
      request = latch.requested;
      count = latch.count;
    } };

    ghost invariant = { λ latch. latch.count ≤ watchdog_limit };
}

/// Whether a write of a bit takes a request back.
#[inline]
fn withdraws(place: u8, bit: bool) -> bool
    ensures { result ≡ spec.withdraws place bit }
{
    place % 8 == INTERRUPT_ENABLE && !bit
}

/// Whether a byte has the bit of this weight.
#[inline]
fn is_one(byte: u8, weight: u8) -> bool
    requires { 0 < weight }
    ensures { result ≡ (byte / weight % 2 == 1) }
{
    byte / weight % 2 == 1
}

impl Latch {
    /// All 0, as at power-on.
    pub fn new() -> Latch
        ensures { result ≡ power_on_latched }
    {
        Latch {
            bits: [false; 8],
            vector: 0,
            requested: false,
            count: 0,
        }
    }

    /// The latch as this byte, with this vector, a request or none, and this count of blanks, at most 16.
    pub fn of(byte: u8, vector: u8, requested: bool, count: u8) -> Latch
        requires { count ≤ spec.watchdog_limit }
        ensures { result ≡ latched_of byte vector requested count }
    {
        Latch {
            bits: [
                is_one(byte, 1),
                is_one(byte, 2),
                is_one(byte, 4),
                is_one(byte, 8),
                is_one(byte, 16),
                is_one(byte, 32),
                is_one(byte, 64),
                is_one(byte, 128),
            ],
            vector,
            requested,
            count,
        }
    }

    /// Becomes a copy of another latch.
    #[inline]
    pub fn copy_from(&mut self, other: &Latch)
        ensures { self.new ≡ other.now }
    {
        self.bits = other.bits;
        self.vector = other.vector;
        self.requested = other.requested;
        self.count = other.count;
    }

    /// Writes a bit of the latch, whose place is taken modulo 8. A 0 written to interrupt enable clears the request.
    #[inline]
    pub fn write_bit(&mut self, place: u8, bit: bool)
        ensures latched { self.new ≡ latched_after_bit self.old place bit }
        ensures set { spec.is_latch_bit_set self.new place ≡ bit }
        ensures others { (other : ℕ) → spec.latch_place other ≢ spec.latch_place place →
            spec.is_latch_bit_set self.new other ≡ spec.is_latch_bit_set self.old other }
    {
        self.bits[place as usize % 8] = bit;
        self.requested &= !withdraws(place, bit);
    }

    /// Sets the interrupt vector.
    #[inline]
    pub fn set_vector(&mut self, byte: u8)
        ensures { self.new ≡ latched_after_vector self.old byte }
    {
        self.vector = byte;
    }

    /// Starts the watchdog's count again from 0.
    #[inline]
    pub fn kick(&mut self)
        ensures { self.new ≡ latched_after_kick self.old }
    {
        self.count = 0;
    }

    /// Clears the request, as the processor's acceptance does.
    #[inline]
    pub fn accept(&mut self)
        ensures { self.new ≡ latched_after_accept self.old }
    {
        self.requested = false;
    }

    /// Clears the latch, the request and the count, as a reset of the board does; the vector stays.
    pub fn reset(&mut self)
        ensures { self.new ≡ latched_after_reset self.old }
    {
        *self = Latch {
            vector: self.vector,
            ..Latch::new()
        };
    }

    /// The vertical blank: asks for an interrupt where interrupts are enabled, then counts the blank, up to the
    /// watchdog's limit. Answers whether the watchdog resets the board now.
    #[inline]
    pub fn blank(&mut self) -> bool
        ensures latched { self.new ≡ latched_after_blank self.old }
        ensures due { result ≡ spec.is_watchdog_due self.new }
    {
        self.requested = self.requested || self.is_set(INTERRUPT_ENABLE);
        self.count = WATCHDOG_LIMIT.min(self.count + 1);
        self.count == WATCHDOG_LIMIT
    }
}
