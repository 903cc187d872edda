//! Numbers of the source.

ghost use Rattle.std.specs.Prelude.{◌≡◌, ◌<◌, ◌≤◌};
ghost use Rattle.pac_lex.specs.Numbers.{value_of_digit, number_in_base, numeral};

/// The greatest number.
const GREATEST: u32 = 65_535;

/// The number that a run of letters and digits is: `None` where it has a wrong digit or is above
/// 65,535.
pub(crate) fn numeral(run: &[u8]) -> Option<u16>
    ensures { result ≡ numeral run.now }
{
    match run {
        [digits @ .., b'H' | b'h'] => in_base(16, digits),
        [digits @ .., b'B' | b'b'] => in_base(2, digits),
        [digits @ .., b'O' | b'o' | b'Q' | b'q'] => in_base(8, digits),
        [digits @ .., b'D' | b'd'] => in_base(10, digits),
        _ => in_base(10, run),
    }
}

/// The number of 16 bits that digits are in a base, if each of them is one of the base.
fn in_base(base: u8, digits: &[u8]) -> Option<u16>
    requires low { 0 < base }
    requires high { base ≤ 16 }
    ensures { result ≡ number_in_base base digits.now }
{
    let mut value: u32 = 0;
    for byte in digits {
        let digit = digit(*byte);
        if digit >= base {
            return None;
        }
        value = value * u32::from(base) + u32::from(digit);
        if value > GREATEST {
            return None;
        }
    }
    Some(value as u16)
}

/// What a digit counts: 0 to 9, and 10 to 35 for the letters in either case.
fn digit(byte: u8) -> u8
    ensures { result ≡ value_of_digit byte }
{
    if byte.is_ascii_digit() {
        byte - 48
    } else if byte < b'a' {
        byte.saturating_sub(55)
    } else {
        byte - 87
    }
}
