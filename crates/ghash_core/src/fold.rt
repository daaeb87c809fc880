//! Numbers of 32 bytes, as sixteen bytes and the sixteen that follow them.

ghost use Rattle.std.specs.Prelude.{◌≡◌, ◌∷◌, take, slice_index};
ghost use Rattle.ghash_core.specs.ByBytes.{polynomial, reduced};

use crate::place::{self, Place};
use std::simd::prelude::*;

/// What a byte past the sixteenth comes back as, sixteen places before: x^128 is 1 + x + x^2 + x^7.
const FOLD: Place = Place {
    high: [
        0x00, 0x1c, 0x38, 0x24, 0x70, 0x6c, 0x48, 0x54, 0xe1, 0xfd, 0xd9, 0xc5, 0x91, 0x8d, 0xa9,
        0xb5,
    ],
    low: [
        0x00, 0x01, 0x03, 0x02, 0x07, 0x06, 0x04, 0x05, 0x0e, 0x0f, 0x0d, 0x0c, 0x09, 0x08, 0x0a,
        0x0b,
    ],
};

/// And in the byte after that.
const SPILL: Place = Place {
    high: [
        0x00, 0x20, 0x40, 0x60, 0x80, 0xa0, 0xc0, 0xe0, 0x00, 0x20, 0x40, 0x60, 0x80, 0xa0, 0xc0,
        0xe0,
    ],
    low: [
        0x00, 0xc2, 0x84, 0x46, 0x08, 0xca, 0x8c, 0x4e, 0x10, 0xd2, 0x94, 0x56, 0x18, 0xda, 0x9c,
        0x5e,
    ],
};

/// One byte on; a zero comes first.
#[inline(always)]
pub fn up(x: u8x16) -> u8x16
    ensures { result ≡ 0 ∷ take 15 x }
{
    u8x16::splat(0).shuffle(
        x,
        [
            0, 16, 17, 18, 19, 20, 21, 22, 23, 24, 25, 26, 27, 28, 29, 30,
        ],
    )
}

/// One byte on; the last byte of `x` comes first.
#[inline(always)]
pub fn up_from(over: u8x16, x: u8x16) -> u8x16
    ensures { result ≡ slice_index x 15 ∷ take 15 over }
{
    x.shuffle(
        over,
        [
            15, 16, 17, 18, 19, 20, 21, 22, 23, 24, 25, 26, 27, 28, 29, 30,
        ],
    )
}

/// The number modulo x^128 + x^7 + x^2 + x + 1, where the last byte is zero.
#[inline(always)]
pub fn folded(x: u8x16, over: u8x16) -> u8x16
    requires { slice_index over 15 ≡ 0 }
    ensures { polynomial result ≡ reduced x over }
{
    (x ^ place::values(&FOLD, over)) ^ up(place::values(&SPILL, over))
}
