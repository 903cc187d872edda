//! The numbers of a command line.

ghost use Rattle.std.specs.Prelude.{◌≡◌, ◌<◌, ◌≤◌, IfSome};
ghost use Rattle.pac_debug_text.specs.Numbers as number;
ghost use Rattle.pac_debug_text.specs.NumbersProofs as numbers_proofs;

/// The number from 1 to the most that a word of decimal digits says. The word may be of any length.
pub(crate) fn number_within(word: &[u8], most: u32) -> Option<u32>
    ensures exact { result ≡ number.number_within most word.now }
    ensures at_least { IfSome result (λ n. 1 ≤ n) }
    ensures at_most { IfSome result (λ n. n ≤ most) }
{
    let mut value: u64 = 0;
    for byte in word {
        if !byte.is_ascii_digit() {
            return None;
        }
        value = value * 10 + u64::from(*byte - b'0');
        if value > u64::from(most) {
            return None;
        }
    }
    if value == 0 {
        return None;
    }
    Some(value as u32)
}

/// What a hexadecimal digit counts, in either case.
fn hex_digit(byte: u8) -> Option<u8>
    ensures value { result ≡ numbers_proofs.hex_digit_number byte }
    ensures below { IfSome result (λ n. n < 16) }
{
    match byte {
        b'0'..=b'9' => Some(byte - b'0'),
        b'A'..=b'F' => Some(byte - b'A' + 10),
        b'a'..=b'f' => Some(byte - b'a' + 10),
        _ => None,
    }
}

/// The address that a word of exactly four hexadecimal digits says.
pub(crate) fn address_of(word: &[u8]) -> Option<u16>
    ensures { result ≡ number.address_of word.now }
{
    let [a, b, c, d] = word else {
        return None;
    };
    let high = 16 * hex_digit(*a)? + hex_digit(*b)?;
    let low = 16 * hex_digit(*c)? + hex_digit(*d)?;
    Some(pac_dis::word(low, high))
}
