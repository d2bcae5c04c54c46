ghost use Rattle.std.specs.Prelude.{◌≡◌};
ghost use Rattle.tr_lanes.specs.Digits.{hex_digits};

use std::simd::prelude::*;

/// The sixteen hexadecimal digits of a word, in lower case, the highest first.
pub fn hex16(word: u64) -> [u8; 16]
    ensures { result ≡ hex_digits word }
{
    let shifts = u64x16::from_array([60, 56, 52, 48, 44, 40, 36, 32, 28, 24, 20, 16, 12, 8, 4, 0]);
    let nibbles = ((u64x16::splat(word) >> shifts) & u64x16::splat(15)).cast::<u8>();
    let letters = nibbles
        .simd_gt(u8x16::splat(9))
        .select(u8x16::splat(39), u8x16::splat(0));
    (nibbles + u8x16::splat(48) + letters).to_array()
}
