//! The flags of loads of I and R, block transfers, searches, and input and output.

ghost use Rattle.std.specs.Prelude.{◌≡◌};
ghost use Rattle.pac_alu.specs.Transfer.{input_flags_of, control_load_flags_of, copy_flags_of};
ghost use Rattle.pac_alu.specs.Transfer.{search_flags_of, port_flags_of};

use crate::bytes::difference_flags;
use crate::flag_byte::{Flags, parity_flags};

/// F after IN r,(C) read this byte.
#[inline]
#[tactic(auto, unfolding(crate::specs::Transfer::input_flags_of))]
pub fn input_flags(byte: u8, f: u8) -> u8
    ensures { result ≡ input_flags_of byte f }
{
    parity_flags(byte, false, Flags::of(f).carry).byte(f)
}

/// F after LD A,I or LD A,R put this byte into A.
#[inline]
#[tactic(auto, unfolding(crate::specs::Transfer::control_load_flags_of))]
pub fn control_load_flags(a: u8, iff2: bool, f: u8) -> u8
    ensures { result ≡ control_load_flags_of a iff2 f }
{
    let flags = Flags {
        sign: 128 <= a,
        zero: a == 0,
        half_carry: false,
        parity_overflow: iff2,
        subtract: false,
        ..Flags::of(f)
    };
    flags.byte(f)
}

/// F after LDI or LDD left this count in BC.
#[inline]
#[tactic(auto, unfolding(crate::specs::Transfer::copy_flags_of))]
pub fn copy_flags(count: u16, f: u8) -> u8
    ensures { result ≡ copy_flags_of count f }
{
    let flags = Flags {
        half_carry: false,
        parity_overflow: 0 < count,
        subtract: false,
        ..Flags::of(f)
    };
    flags.byte(f)
}

/// F after CPI or CPD compared A with this byte and left this count in BC.
#[inline]
#[tactic(auto, unfolding(crate::specs::Transfer::search_flags_of))]
pub fn search_flags(a: u8, byte: u8, count: u16, f: u8) -> u8
    ensures { result ≡ search_flags_of a byte count f }
{
    let flags = Flags {
        parity_overflow: count != 0,
        carry: Flags::of(f).carry,
        ..difference_flags(a, byte, 0)
    };
    flags.byte(f)
}

/// F after INI, IND, OUTI or OUTD left this count in B.
#[inline]
#[tactic(auto, unfolding(crate::specs::Transfer::port_flags_of))]
pub fn port_flags(count: u8, f: u8) -> u8
    ensures { result ≡ port_flags_of count f }
{
    let flags = Flags {
        zero: count == 0,
        subtract: true,
        ..Flags::of(f)
    };
    flags.byte(f)
}
