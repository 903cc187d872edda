//! Numbers as digits.

ghost use Rattle.std.specs.Prelude.{◌≡◌};
ghost use Rattle.pac_listing.specs.Texts as text;

/// The last digit of a number.
#[inline]
fn last_digit(number: u64) -> u8
    ensures { result ≡ text.decimal_digit number }
{
    48 + (number % 10) as u8
}

/// The last five digits of a number.
#[tactic(auto, unfolding(crate::specs::Texts::five_digits))]
#[inline]
pub(crate) fn five_digits(number: u64) -> [u8; 5]
    ensures { result ≡ text.five_digits number }
{
    [
        last_digit(number / 10000),
        last_digit(number / 1000),
        last_digit(number / 100),
        last_digit(number / 10),
        last_digit(number),
    ]
}
