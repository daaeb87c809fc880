//! The running value of GHASH over bytes, as a number whose highest bit is the block's first.
ghost use Rattle.std.specs.Prelude.{◌≡◌, ℕ, ◌+◌, ◌-◌, ◌<◌, ◌≤◌, ◌++◌, length, take, drop, replicate};
ghost use Rattle.ghash_core.specs.Block.{blocks_in};
ghost use Rattle.ghash_core.specs.Lane.{AreRows};
ghost use Rattle.ghash_core.specs.Number.{horner, numbers, number_of, number_power, AreMultiples};

use crate::lanes::{self, Row};
use crate::{bitwise, nibbles};

/// The number of a block, its first bit the highest.
#[inline(always)]
pub fn number(block: &[u8; 16]) -> u128
    ensures { result ≡ number_of block.now }
{
    u128::from_be_bytes(*block)
}

/// The block of at most 16 bytes, with zeros after them.
pub fn padded(bytes: &[u8]) -> [u8; 16]
    requires { length bytes.now ≤ 16 }
    ensures { result ≡ take 16 (bytes.now ++ replicate 16 0) }
{
    let mut block = [0u8; 16];
    for i in 0..bytes.len() {
        block[i] = bytes[i];
    }
    block
}

/// The first block, and what follows it.
#[inline(always)]
pub fn take_block(bytes: &[u8]) -> (&[u8; 16], &[u8])
    requires { 16 ≤ length bytes.now }
    ensures value { result.0.now ≡ take 16 bytes.now }
    ensures after { result.1.now ≡ drop 16 bytes.now }
    ensures left { length result.1.now + 16 ≡ length bytes.now }
{
    match bytes.split_first_chunk::<16>() {
        Some((block, after)) => (block, after),
        None => unreachable!(),
    }
}

/// Takes `bytes` into `y`, four bits at a time.
pub fn by_nibbles(table: &[u128; 16], y: u128, bytes: &[u8]) -> u128
    ensures { (h : ℕ) → AreMultiples table.now h
        → result ≡ horner h y (numbers (blocks_in (length bytes.now)) bytes.now) }
{
    let mut sum = y;
    let mut rest = bytes;
    while let Some((block, after)) = rest.split_first_chunk::<16>() {
        sum = nibbles::multiply(table, sum ^ number(block));
        rest = after;
    }
    if rest.is_empty() {
        sum
    } else {
        nibbles::multiply(table, sum ^ number(&padded(rest)))
    }
}

/// Takes `bytes` into `y`, bit by bit.
pub fn by_bits(h: u128, y: u128, bytes: &[u8]) -> u128
    ensures { result ≡ horner h y (numbers (blocks_in (length bytes.now)) bytes.now) }
{
    let mut sum = y;
    let mut rest = bytes;
    while let Some((block, after)) = rest.split_first_chunk::<16>() {
        sum = bitwise::multiply(sum ^ number(block), h);
        rest = after;
    }
    if rest.is_empty() {
        sum
    } else {
        bitwise::multiply(sum ^ number(&padded(rest)), h)
    }
}

/// Takes `bytes` into `y`, four blocks side by side, and the rest of fewer than four bit by bit. Lane j of the rows is
/// of H^(4 - j).
pub fn by_lanes(rows: &[Row; 16], h: u128, y: u128, bytes: &[u8]) -> u128
    ensures { ((j : ℕ) → j < 4 → AreRows rows.now j (number_power h (4 - j)))
        → result ≡ horner h y (numbers (blocks_in (length bytes.now)) bytes.now) }
{
    let mut sum = y;
    let mut rest = bytes;
    while 64 <= rest.len() {
        let (a, after_a) = take_block(rest);
        let (b, after_b) = take_block(after_a);
        let (c, after_c) = take_block(after_b);
        let (d, after_d) = take_block(after_c);
        let (hi, lo) = lanes::split(sum ^ number(a), number(b), number(c), number(d));
        let (product_hi, product_lo) = lanes::multiply(rows, hi, lo);
        sum = lanes::sum(product_hi, product_lo);
        rest = after_d;
    }
    by_bits(h, sum, rest)
}
