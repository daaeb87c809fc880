//! The running value of GHASH over bytes, as a vector of sixteen bytes.
ghost use Rattle.std.specs.Prelude.{◌≡◌, ℕ, ◌≤◌, length, take, bit_xor};
ghost use Rattle.std.specs.Int.{bytes_high_first};
ghost use Rattle.ghash_core.specs.Block.{blocks_in};
ghost use Rattle.ghash_core.specs.Number.{horner, numbers, number_of, number_power};
ghost use Rattle.ghash_core.specs.ByBytes.{polynomial};
ghost use Rattle.ghash_core.specs.Places.{ArePlaces};

use crate::absorb::{padded, take_block};
use crate::place::Place;
use crate::product;
use std::simd::prelude::*;

/// The block of the first sixteen bytes.
#[inline(always)]
pub fn block(bytes: &[u8]) -> u8x16
    requires { 16 ≤ length bytes.now }
    ensures { polynomial result ≡ number_of (take 16 bytes.now) }
{
    u8x16::from_slice(bytes)
}

/// A block's number, its first bit the highest.
#[inline(always)]
pub fn number(x: u8x16) -> u128
    ensures { result ≡ polynomial x }
{
    u128::from_be_bytes(x.to_array())
}

/// A block's bytes.
#[inline(always)]
pub fn bytes(x: u8x16) -> [u8; 16]
    ensures { result ≡ bytes_high_first 16 (polynomial x) }
{
    x.to_array()
}

/// The sum of two blocks.
#[inline(always)]
fn plus(x: u8x16, y: u8x16) -> u8x16
    ensures { polynomial result ≡ bit_xor (polynomial x) (polynomial y) }
{
    x ^ y
}

/// Takes `bytes` into `acc`, a block at a time.
pub fn by_ones(h: &[Place; 16], acc: u8x16, bytes: &[u8]) -> u8x16
    ensures { (n : ℕ) → ArePlaces h.now n
        → polynomial result ≡ horner n (polynomial acc) (numbers (blocks_in (length bytes.now)) bytes.now) }
{
    let mut sum = acc;
    let mut rest = bytes;
    while let Some((first, after)) = rest.split_first_chunk::<16>() {
        sum = product::multiply(h, plus(sum, block(first)));
        rest = after;
    }
    if rest.is_empty() {
        return sum;
    }
    product::multiply(h, plus(sum, block(&padded(rest))))
}

/// Takes `bytes` into `acc`, four blocks at a time: `fourth` to `first` are of H^4 to H.
pub fn by_fours(
    fourth: &[Place; 16],
    third: &[Place; 16],
    second: &[Place; 16],
    first: &[Place; 16],
    acc: u8x16,
    bytes: &[u8],
) -> u8x16
    ensures { (n : ℕ) → ArePlaces first.now n → ArePlaces second.now (number_power n 2) → ArePlaces third.now (number_power n 3)
        → ArePlaces fourth.now (number_power n 4)
        → polynomial result ≡ horner n (polynomial acc) (numbers (blocks_in (length bytes.now)) bytes.now) }
{
    let mut sum = acc;
    let mut rest = bytes;
    while 64 <= rest.len() {
        let (x, after_x) = take_block(rest);
        let (y, after_y) = take_block(after_x);
        let (z, after_z) = take_block(after_y);
        let (w, after_w) = take_block(after_z);
        sum = product::multiply_four(
            fourth,
            plus(sum, block(x)),
            third,
            block(y),
            second,
            block(z),
            first,
            block(w),
        );
        rest = after_w;
    }
    by_ones(first, sum, rest)
}
