//! The product by a fixed block, all bytes of the other at once.
ghost use Rattle.std.specs.Prelude.{◌≡◌, ◌∷◌, ◌<◌, ℕ, take, slice_index, bit_xor};
ghost use Rattle.ghash_core.specs.Number.{number_product, shift_by};
ghost use Rattle.ghash_core.specs.ByBytes.{polynomial, reduced, byte_products, four_sum};
ghost use Rattle.ghash_core.specs.Places.{ArePlaces};

use crate::fold::{folded, up, up_from};
use crate::place::{self, Place};
use std::simd::prelude::*;

/// Sixteen bytes and those that follow, one byte on; `values` are added.
#[inline(always)]
fn carried(sum: u8x16, over: u8x16, values: u8x16) -> (u8x16, u8x16)
    requires { slice_index over 15 ≡ 0 }
    ensures sum { reduced result.0 result.1 ≡ bit_xor (shift_by 8 (reduced sum over)) (polynomial values) }
    ensures over { result.1 ≡ slice_index sum 15 ∷ take 15 over }
{
    (up(sum) ^ values, up_from(over, sum))
}

/// The product of x and h.
#[inline(always)]
pub fn multiply(h: &[Place; 16], x: u8x16) -> u8x16
    ensures { (n : ℕ) → ArePlaces h.now n → polynomial result ≡ number_product (polynomial x) n }
{
    let mut sum = place::values(&h[15], x);
    let mut over = u8x16::splat(0);
    for step in 0usize..15 {
        let values = place::values(&h[14 - step], x);
        (sum, over) = carried(sum, over, values);
    }
    folded(sum, over)
}

/// The sum of the values at place k.
#[inline(always)]
fn four_values(
    k: usize,
    a: &[Place; 16],
    x: u8x16,
    b: &[Place; 16],
    y: u8x16,
    c: &[Place; 16],
    z: u8x16,
    d: &[Place; 16],
    w: u8x16,
) -> u8x16
    requires { k < 16 }
    ensures { (l m n o : ℕ) → ArePlaces a.now l → ArePlaces b.now m → ArePlaces c.now n → ArePlaces d.now o
        → polynomial result ≡ four_sum (byte_products k) l x m y n z o w }
{
    // x is added last, since it may come late.
    let rest = place::values(&b[k], y) ^ (place::values(&c[k], z) ^ place::values(&d[k], w));
    rest ^ place::values(&a[k], x)
}

/// The sum of four products.
#[inline(always)]
pub fn multiply_four(
    a: &[Place; 16],
    x: u8x16,
    b: &[Place; 16],
    y: u8x16,
    c: &[Place; 16],
    z: u8x16,
    d: &[Place; 16],
    w: u8x16,
) -> u8x16
    ensures { (l m n o : ℕ) → ArePlaces a.now l → ArePlaces b.now m → ArePlaces c.now n → ArePlaces d.now o
        → polynomial result ≡ bit_xor (number_product (polynomial x) l) (bit_xor (number_product (polynomial y) m)
        (bit_xor (number_product (polynomial z) n) (number_product (polynomial w) o))) }
{
    let mut sum = four_values(15, a, x, b, y, c, z, d, w);
    let mut over = u8x16::splat(0);
    for step in 0usize..15 {
        let values = four_values(14 - step, a, x, b, y, c, z, d, w);
        (sum, over) = carried(sum, over, values);
    }
    folded(sum, over)
}
