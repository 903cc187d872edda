//! F as a byte and as six flags, the conditions that ask it, SCF and CCF.

ghost use Rattle.std.specs.Prelude.{◌≡◌};
ghost use Rattle.pac_alu.specs.Flags.{flags_of, flag_byte_of, weight_if, parity_flags_of};
ghost use Rattle.pac_alu.specs.Flags.{field_condition, is_met};
ghost use Rattle.pac_alu.specs.Arithmetic.{carry_set_of, carry_flipped_of};

/// The six flags of F that have a meaning (UM0080, "Z80 Status Indicator Flags").
#[derive(Clone, Copy)]
pub struct Flags {
    /// S, bit 7 of F.
    pub sign: bool,
    /// Z, bit 6.
    pub zero: bool,
    /// H, bit 4.
    pub half_carry: bool,
    /// P/V, bit 2.
    pub parity_overflow: bool,
    /// N, bit 1: the last operation subtracted.
    pub subtract: bool,
    /// C, bit 0.
    pub carry: bool,
}

/// A condition of a jump, call or return, in the order of the codes cc 0 to 7 (UM0080, "Jump Group").
#[derive(Clone, Copy)]
pub enum Condition {
    /// NZ.
    NotZero,
    /// Z.
    Zero,
    /// NC.
    NoCarry,
    /// C.
    Carry,
    /// PO.
    ParityOdd,
    /// PE.
    ParityEven,
    /// P.
    Plus,
    /// M.
    Minus,
}

/// The weight of a flag that is set, and 0 for one that is clear.
#[inline]
pub(crate) fn weight(weight: u8, flag: bool) -> u8
    ensures { result ≡ weight_if weight flag }
{
    if flag { weight } else { 0 }
}

/// S, Z and P of a byte, with this H and C, and N clear.
#[inline]
pub(crate) fn parity_flags(value: u8, half_carry: bool, carry: bool) -> Flags
    ensures { result ≡ parity_flags_of value half_carry carry }
{
    Flags {
        sign: 128 <= value,
        zero: value == 0,
        half_carry,
        parity_overflow: pac_num::is_even(value),
        subtract: false,
        carry,
    }
}

impl Flags {
    /// The flags of a byte F.
    #[inline]
    pub fn of(f: u8) -> Flags
        ensures { result ≡ flags_of f }
    {
        Flags {
            sign: f / 128 == 1,
            zero: f / 64 % 2 == 1,
            half_carry: f / 16 % 2 == 1,
            parity_overflow: f / 4 % 2 == 1,
            subtract: f / 2 % 2 == 1,
            carry: f % 2 == 1,
        }
    }

    /// The byte F with these flags, and with bits 5 and 3 of the byte F before.
    #[inline(always)]
    pub fn byte(self, before: u8) -> u8
        ensures { result ≡ flag_byte_of self before }
    {
        weight(128, self.sign)
            + weight(64, self.zero)
            + before / 32 % 2 * 32
            + weight(16, self.half_carry)
            + before / 8 % 2 * 8
            + weight(4, self.parity_overflow)
            + weight(2, self.subtract)
            + weight(1, self.carry)
    }
}

impl Condition {
    /// The condition of a code's field cc; 7 and above are M.
    #[inline]
    #[tactic(auto, unfolding(crate::specs::Flags::field_condition))]
    pub fn from_field(field: u8) -> Condition
        ensures { result ≡ field_condition field }
    {
        match field {
            0 => Condition::NotZero,
            1 => Condition::Zero,
            2 => Condition::NoCarry,
            3 => Condition::Carry,
            4 => Condition::ParityOdd,
            5 => Condition::ParityEven,
            6 => Condition::Plus,
            _ => Condition::Minus,
        }
    }

    /// Whether F meets the condition.
    #[inline]
    #[tactic(auto, unfolding(crate::specs::Flags::is_met))]
    pub fn is_met(self, f: u8) -> bool
        ensures { result ≡ is_met self f }
    {
        let flags = Flags::of(f);
        match self {
            Condition::NotZero => !flags.zero,
            Condition::Zero => flags.zero,
            Condition::NoCarry => !flags.carry,
            Condition::Carry => flags.carry,
            Condition::ParityOdd => !flags.parity_overflow,
            Condition::ParityEven => flags.parity_overflow,
            Condition::Plus => !flags.sign,
            Condition::Minus => flags.sign,
        }
    }
}

/// F after SCF: C set, H and N clear.
#[inline]
#[tactic(auto, unfolding(crate::specs::Arithmetic::carry_set_of))]
pub fn set_carry(f: u8) -> u8
    ensures { result ≡ carry_set_of f }
{
    let flags = Flags {
        half_carry: false,
        subtract: false,
        carry: true,
        ..Flags::of(f)
    };
    flags.byte(f)
}

/// F after CCF: C flipped, H the C before, N clear.
#[inline]
#[tactic(auto, unfolding(crate::specs::Arithmetic::carry_flipped_of))]
pub fn complement_carry(f: u8) -> u8
    ensures { result ≡ carry_flipped_of f }
{
    let before = Flags::of(f);
    let flags = Flags {
        half_carry: before.carry,
        subtract: false,
        carry: !before.carry,
        ..before
    };
    flags.byte(f)
}
