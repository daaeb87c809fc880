//! SBOX() as the power 254 of a byte and the affine map, on sixteen bytes at once: squarings are linear maps,
//! products are sums of masked doublings.
ghost use Rattle.std.specs.Prelude.{◌≡◌, ◌<◌, ℕ, bit_xor, slice_index, slice_index_or, []};
ghost use Rattle.aes_spec.specs.Field.{times, sub_byte};
ghost use Rattle.aes_lanes.specs.Powers.{gate, doubled, chosen, linear};

use crate::nibbles::{Lanes, splat, sum};
use std::simd::prelude::*;

/// The squares of {01}, {02}, {04}, .. {80}.
const SQUARES: [u8; 8] = [1, 4, 16, 64, 27, 108, 171, 154];

/// Their fourth powers.
const FOURTHS: [u8; 8] = [1, 16, 27, 171, 94, 151, 179, 197];

/// Their sixteenth powers.
const SIXTEENTHS: [u8; 8] = [1, 94, 228, 232, 77, 145, 29, 108];

/// Their images under the affine map of SBOX() less its constant.
const AFFINES: [u8; 8] = [31, 62, 124, 248, 241, 227, 199, 143];

/// `w` where the highest bit of `v` is set, else 0.
#[inline(always)]
fn where_high(v: Lanes, w: Lanes) -> Lanes
    ensures { (j : ℕ) → j < 16 → slice_index result j ≡ gate (slice_index v j) (slice_index w j) }
{
    v.simd_ge(Lanes::splat(0x80)).select(w, Lanes::splat(0))
}

/// Each byte shifted by one place.
#[inline(always)]
fn twice(v: Lanes) -> Lanes
    ensures { (j : ℕ) → j < 16 → slice_index result j ≡ doubled (slice_index v j) }
{
    v + v
}

/// The product with {02}.
#[inline(always)]
pub(crate) fn double(v: Lanes) -> Lanes
    ensures { (j : ℕ) → j < 16 → slice_index result j ≡ times 2 (slice_index v j) }
{
    sum(twice(v), where_high(v, splat(0x1b)))
}

/// The products with {01}, {02}, {04}, .. {80}.
#[inline(always)]
fn multiples(a0: Lanes) -> [Lanes; 8]
    ensures m0 { (j : ℕ) → j < 16 → slice_index (slice_index_or result 0 []) j ≡ times 1 (slice_index a0 j) }
    ensures m1 { (j : ℕ) → j < 16 → slice_index (slice_index_or result 1 []) j ≡ times 2 (slice_index a0 j) }
    ensures m2 { (j : ℕ) → j < 16 → slice_index (slice_index_or result 2 []) j ≡ times 4 (slice_index a0 j) }
    ensures m3 { (j : ℕ) → j < 16 → slice_index (slice_index_or result 3 []) j ≡ times 8 (slice_index a0 j) }
    ensures m4 { (j : ℕ) → j < 16 → slice_index (slice_index_or result 4 []) j ≡ times 16 (slice_index a0 j) }
    ensures m5 { (j : ℕ) → j < 16 → slice_index (slice_index_or result 5 []) j ≡ times 32 (slice_index a0 j) }
    ensures m6 { (j : ℕ) → j < 16 → slice_index (slice_index_or result 6 []) j ≡ times 64 (slice_index a0 j) }
    ensures m7 { (j : ℕ) → j < 16 → slice_index (slice_index_or result 7 []) j ≡ times 128 (slice_index a0 j) }
{
    let a1 = double(a0);
    let a2 = double(a1);
    let a3 = double(a2);
    let a4 = double(a3);
    let a5 = double(a4);
    let a6 = double(a5);
    let a7 = double(a6);
    [a0, a1, a2, a3, a4, a5, a6, a7]
}

/// The sum of the vectors m[i] where bit i of `b7` is set.
#[inline(always)]
fn masked(b7: Lanes, m: [Lanes; 8]) -> Lanes
    ensures { (j : ℕ) → j < 16 → slice_index result j ≡ chosen (slice_index b7 j) (slice_index (slice_index_or m 0 []) j) (slice_index (slice_index_or m 1 []) j) (slice_index (slice_index_or m 2 []) j) (slice_index (slice_index_or m 3 []) j) (slice_index (slice_index_or m 4 []) j) (slice_index (slice_index_or m 5 []) j) (slice_index (slice_index_or m 6 []) j) (slice_index (slice_index_or m 7 []) j) }
{
    let b6 = twice(b7);
    let b5 = twice(b6);
    let b4 = twice(b5);
    let b3 = twice(b4);
    let b2 = twice(b3);
    let b1 = twice(b2);
    let b0 = twice(b1);
    let high = sum(
        sum(where_high(b7, m[7]), where_high(b6, m[6])),
        sum(where_high(b5, m[5]), where_high(b4, m[4])),
    );
    let low = sum(
        sum(where_high(b3, m[3]), where_high(b2, m[2])),
        sum(where_high(b1, m[1]), where_high(b0, m[0])),
    );
    sum(high, low)
}

/// The product in the AES field (FIPS 197, section 4.2).
#[inline(always)]
fn product(a: Lanes, b: Lanes) -> Lanes
    ensures { (j : ℕ) → j < 16 → slice_index result j ≡ times (slice_index a j) (slice_index b j) }
{
    masked(b, multiples(a))
}

/// Each of eight bytes in all lanes.
#[inline(always)]
fn splats(m: [u8; 8]) -> [Lanes; 8]
    ensures m0 { (j : ℕ) → j < 16 → slice_index (slice_index_or result 0 []) j ≡ slice_index m 0 }
    ensures m1 { (j : ℕ) → j < 16 → slice_index (slice_index_or result 1 []) j ≡ slice_index m 1 }
    ensures m2 { (j : ℕ) → j < 16 → slice_index (slice_index_or result 2 []) j ≡ slice_index m 2 }
    ensures m3 { (j : ℕ) → j < 16 → slice_index (slice_index_or result 3 []) j ≡ slice_index m 3 }
    ensures m4 { (j : ℕ) → j < 16 → slice_index (slice_index_or result 4 []) j ≡ slice_index m 4 }
    ensures m5 { (j : ℕ) → j < 16 → slice_index (slice_index_or result 5 []) j ≡ slice_index m 5 }
    ensures m6 { (j : ℕ) → j < 16 → slice_index (slice_index_or result 6 []) j ≡ slice_index m 6 }
    ensures m7 { (j : ℕ) → j < 16 → slice_index (slice_index_or result 7 []) j ≡ slice_index m 7 }
{
    [
        splat(m[0]),
        splat(m[1]),
        splat(m[2]),
        splat(m[3]),
        splat(m[4]),
        splat(m[5]),
        splat(m[6]),
        splat(m[7]),
    ]
}

/// The linear map that takes bit i of each byte to `images[i]`.
#[inline(always)]
fn linear(images: [u8; 8], x: Lanes) -> Lanes
    ensures { (j : ℕ) → j < 16 → slice_index result j ≡ linear images (slice_index x j) }
{
    masked(x, splats(images))
}

/// SBOX() of sixteen bytes (FIPS 197, section 5.1.1).
pub(crate) fn sub(x: Lanes) -> Lanes
    ensures { (j : ℕ) → j < 16 → slice_index result j ≡ sub_byte (slice_index x j) }
{
    let x2 = linear(SQUARES, x);
    let x3 = product(x2, x);
    let x12 = linear(FOURTHS, x3);
    let x15 = product(x12, x3);
    let x240 = linear(SIXTEENTHS, x15);
    let x252 = product(x12, x240);
    let x254 = product(x2, x252);
    sum(linear(AFFINES, x254), splat(0x63))
}
