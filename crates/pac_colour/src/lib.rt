//! Colours of the picture: the colour number of a pixel, and red, green and blue of a byte of the colour PROM.
#![tactic(auto)]

ghost use Rattle.std.specs.Prelude.{◌≡◌, ◌<◌, ◌+◌, length};
ghost use Rattle.pac_colour.specs.Colours as colours;
ghost use Rattle.pac_colour.specs.ColoursProofs as colours_proofs;

use pac_num::bit;

/// The colour number, 0 to 15, of a pixel's value, 0 to 3, in a colour, from the 256 bytes of the lookup PROM.
/// The high three bits of the colour byte are not wired.
#[inline]
pub fn index(lookup: &[u8], colour: u8, pixel: u8) -> u8
    requires lookup { length lookup.now ≡ colours_proofs.lookup_size }
    requires pixel { pixel < 4 }
    ensures index { result ≡ colours.index_of lookup.now colour pixel }
    ensures below { result < colours.numbers }
{
    lookup[4 * (colour % 32) as usize + pixel as usize] % 16
}

/// Red, green and blue, 0 to 255 each, of a byte of the colour PROM.
#[inline]
pub fn rgb(byte: u8) -> [u8; 3]
    ensures { result ≡ colours.rgb_of byte }
{
    let blue = 81 * bit(byte, 6) + 174 * bit(byte, 7);
    [three_bits(byte, 0), three_bits(byte, 3), blue]
}

/// What three bits of a byte of the colour PROM, from a place on, add up to.
#[inline]
fn three_bits(byte: u8, place: u8) -> u8
    requires { place + 2 < 8 }
    ensures { result ≡ colours.three_bits byte place }
{
    33 * bit(byte, place) + 71 * bit(byte, place + 1) + 151 * bit(byte, place + 2)
}
