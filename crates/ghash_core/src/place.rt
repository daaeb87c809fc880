//! Look-ups of sixteen bytes at once.
ghost use Rattle.std.specs.Prelude.{◌≡◌, ℕ, ◌<◌, ◌/◌, ◌%◌, bit_xor, map, slice_index};
ghost use Rattle.ghash_core.specs.Number.{when};
ghost use Rattle.ghash_core.specs.Places.{value_at};

use std::simd::prelude::*;

/// A function on bytes that keeps sums: its values at the sixteen high halves of a byte, and at the low ones.
#[derive(Clone, Copy)]
pub struct Place {
    pub high: [u8; 16],
    pub low: [u8; 16],
}

impl Place {
    /// The look-ups of zeros.
    pub const ZERO: Place = Place {
        high: [0; 16],
        low: [0; 16],
    };
}

/// The values at each byte of `x`.
#[inline(always)]
pub fn values(place: &Place, x: u8x16) -> u8x16
    ensures { result ≡ map (value_at place.now) x }
{
    let high = u8x16::from_array(place.high).swizzle_dyn(x >> u8x16::splat(4));
    let low = u8x16::from_array(place.low).swizzle_dyn(x & u8x16::splat(15));
    high ^ low
}

const FIRST: [u8; 16] = [
    0, 0, 0, 0, 0, 0, 0, 0, 255, 255, 255, 255, 255, 255, 255, 255,
];

const SECOND: [u8; 16] = [
    0, 0, 0, 0, 255, 255, 255, 255, 0, 0, 0, 0, 255, 255, 255, 255,
];

const THIRD: [u8; 16] = [
    0, 0, 255, 255, 0, 0, 255, 255, 0, 0, 255, 255, 0, 0, 255, 255,
];

const FOURTH: [u8; 16] = [
    0, 255, 0, 255, 0, 255, 0, 255, 0, 255, 0, 255, 0, 255, 0, 255,
];

/// The sums of the bytes that the bits of 0 to 15 pick, `a` by the highest bit.
#[inline(always)]
pub fn sums(a: u8, b: u8, c: u8, d: u8) -> [u8; 16]
    ensures { (n : ℕ) → n < 16 → slice_index result n
        ≡ bit_xor (when (n / 8 % 2) a) (bit_xor (when (n / 4 % 2) b) (bit_xor (when (n / 2 % 2) c) (when (n % 2) d))) }
{
    let first = u8x16::from_array(FIRST) & u8x16::splat(a);
    let second = u8x16::from_array(SECOND) & u8x16::splat(b);
    let third = u8x16::from_array(THIRD) & u8x16::splat(c);
    let fourth = u8x16::from_array(FOURTH) & u8x16::splat(d);
    (first ^ (second ^ (third ^ fourth))).to_array()
}
