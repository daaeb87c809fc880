//! Four products side by side, in vectors of four lanes of 64 bits, by shifts and masks alone.
ghost use Rattle.std.specs.Prelude.{◌≡◌, ℕ, ◌+◌, ◌*◌, ◌/◌, ◌%◌, ◌^◌, ◌<◌, bit_xor, slice_index};
ghost use Rattle.ghash_core.specs.Number.{digits, digits_product, number_product, shift_by, when};
ghost use Rattle.ghash_core.specs.Lane.{lane, AreRows};

use crate::bitwise;
use std::simd::prelude::*;

/// A number of 128 bits in each lane, as high and low words.
#[derive(Clone, Copy)]
pub struct Row {
    pub hi: u64x4,
    pub lo: u64x4,
}

/// Each number's product by x^16. The bits that fall out come back at the top, once for each one of R.
#[inline(always)]
fn by_x16(hi: u64x4, lo: u64x4) -> (u64x4, u64x4)
    ensures { (j : ℕ) → j < 4 → lane j result.0 result.1 ≡ shift_by 16 (lane j hi lo) }
{
    let low = lo << 48;
    (
        (hi >> 16) ^ low ^ (low >> 1) ^ (low >> 2) ^ (low >> 7),
        (lo >> 16) | (hi << 48),
    )
}

/// z and, where the lowest bit of w is set, v.
#[inline(always)]
fn add_where(z: u64x4, v: u64x4, w: u64x4) -> u64x4
    ensures { (j : ℕ) → j < 4 → slice_index result j ≡ bit_xor (slice_index z j) (when (slice_index w j % 2) (slice_index v j)) }
{
    z ^ (v & (u64x4::splat(0) - (w & u64x4::splat(1))))
}

/// The same, of numbers.
#[inline(always)]
fn add_row(z_hi: u64x4, z_lo: u64x4, v_hi: u64x4, v_lo: u64x4, w: u64x4) -> (u64x4, u64x4)
    ensures { (j : ℕ) → j < 4 → lane j result.0 result.1 ≡ bit_xor (lane j z_hi z_lo) (when (slice_index w j % 2) (lane j v_hi v_lo)) }
{
    (add_where(z_hi, v_hi, w), add_where(z_lo, v_lo, w))
}

/// One place down.
#[inline(always)]
fn halved(w: u64x4) -> u64x4
    ensures { (j : ℕ) → j < 4 → slice_index result j ≡ slice_index w j / 2 }
{
    w >> 1
}

/// Sixteen places down.
#[inline(always)]
fn without_sixteen(w: u64x4) -> u64x4
    ensures { (j : ℕ) → j < 4 → slice_index result j ≡ slice_index w j / 2 ^ 16 }
{
    w >> 16
}

/// Each z and, in each lane, the product of the lowest sixteen bits by the multiplicand.
#[inline(always)]
fn add_rows(rows: &[Row; 16], z_hi: u64x4, z_lo: u64x4, bits: u64x4) -> (u64x4, u64x4)
    ensures { (j h : ℕ) → j < 4 → AreRows rows.now j h
        → lane j result.0 result.1 ≡ bit_xor (lane j z_hi z_lo) (digits_product (digits 16 (slice_index bits j)) h) }
{
    let mut hi = z_hi;
    let mut lo = z_lo;
    let mut w = bits;
    for i in 0usize..16 {
        let row = rows[i];
        (hi, lo) = add_row(hi, lo, row.hi, row.lo, w);
        w = halved(w);
    }
    (hi, lo)
}

/// Each z times x^64, and the product of the word by the multiplicand.
#[inline(always)]
fn multiply_word(rows: &[Row; 16], z_hi: u64x4, z_lo: u64x4, word: u64x4) -> (u64x4, u64x4)
    ensures { (j h : ℕ) → j < 4 → AreRows rows.now j h
        → lane j result.0 result.1 ≡ bit_xor (digits_product (digits 64 (slice_index word j)) h) (shift_by 64 (lane j z_hi z_lo)) }
{
    let mut hi = z_hi;
    let mut lo = z_lo;
    let mut w = word;
    for step in 0usize..4 {
        let (shifted_hi, shifted_lo) = by_x16(hi, lo);
        (hi, lo) = add_rows(rows, shifted_hi, shifted_lo, w);
        w = without_sixteen(w);
    }
    (hi, lo)
}

/// The four products.
#[inline(always)]
pub fn multiply(rows: &[Row; 16], x_hi: u64x4, x_lo: u64x4) -> (u64x4, u64x4)
    ensures { (j h : ℕ) → j < 4 → AreRows rows.now j h → lane j result.0 result.1 ≡ number_product (lane j x_hi x_lo) h }
{
    let (hi, lo) = multiply_word(rows, u64x4::splat(0), u64x4::splat(0), x_lo);
    multiply_word(rows, hi, lo, x_hi)
}

/// The products of four blocks by x.
fn by_x(blocks: &[u128; 4]) -> [u128; 4]
    ensures { (j : ℕ) → j < 4 → slice_index result j ≡ shift_by 1 (slice_index blocks.now j) }
{
    [
        bitwise::by_x(blocks[0]),
        bitwise::by_x(blocks[1]),
        bitwise::by_x(blocks[2]),
        bitwise::by_x(blocks[3]),
    ]
}

/// The rows of four multiplicands, a lane for each.
pub fn rows_of(multiplicands: &[u128; 4]) -> [Row; 16]
    ensures { (j : ℕ) → j < 4 → AreRows result j (slice_index multiplicands.now j) }
{
    let zero = u64x4::splat(0);
    let mut rows = [Row { hi: zero, lo: zero }; 16];
    let mut products = *multiplicands;
    for i in 0usize..16 {
        let (hi, lo) = split(products[0], products[1], products[2], products[3]);
        rows[15 - i] = Row { hi, lo };
        let next = by_x(&products);
        products = next;
    }
    rows
}

/// The high word.
#[inline(always)]
fn high(x: u128) -> u64
    ensures { result ≡ x / 2 ^ 64 }
{
    (x >> 64) as u64
}

/// The low word.
#[inline(always)]
fn low(x: u128) -> u64
    ensures { result ≡ x % 2 ^ 64 }
{
    (x & 0xffff_ffff_ffff_ffff) as u64
}

/// Two words as one number.
#[inline(always)]
fn join(hi: u64, lo: u64) -> u128
    ensures { result ≡ hi * 2 ^ 64 + lo }
{
    ((hi as u128) << 64) | lo as u128
}

/// Four numbers as the lanes of two vectors.
#[inline(always)]
pub fn split(a: u128, b: u128, c: u128, d: u128) -> (u64x4, u64x4)
    ensures first { lane 0 result.0 result.1 ≡ a }
    ensures second { lane 1 result.0 result.1 ≡ b }
    ensures third { lane 2 result.0 result.1 ≡ c }
    ensures fourth { lane 3 result.0 result.1 ≡ d }
{
    (
        u64x4::from_array([high(a), high(b), high(c), high(d)]),
        u64x4::from_array([low(a), low(b), low(c), low(d)]),
    )
}

/// The sum of the four numbers.
#[inline(always)]
pub fn sum(hi: u64x4, lo: u64x4) -> u128
    ensures { result ≡ bit_xor (lane 0 hi lo) (bit_xor (lane 1 hi lo) (bit_xor (lane 2 hi lo) (lane 3 hi lo))) }
{
    let [h0, h1, h2, h3] = hi.to_array();
    let [l0, l1, l2, l3] = lo.to_array();
    join(h0, l0) ^ (join(h1, l1) ^ (join(h2, l2) ^ join(h3, l3)))
}
