//! The S-box on sixteen bytes at once, by look-ups of nibbles in vectors.
ghost use Rattle.std.specs.Prelude.{◌≡◌, ◌<◌, ◌/◌, ℕ, IsTrue, bit_xor, bit_and, slice_index};
ghost use Rattle.aes_lanes.specs.Nibbles.{read, is_place, first_half, second_half, to_tower, twice_sub, thrice_sub, last_sub};
ghost use Rattle.aes_spec.specs.Field.{sub_byte};

use crate::tables::{
    IN_HIGH, IN_LOW, INV, LAST_P, LAST_Q, OVER, THRICE_P, THRICE_Q, TWICE_P, TWICE_Q,
};
use std::simd::prelude::*;

/// Sixteen bytes: one byte place of sixteen blocks, or the sixteen bytes of one.
pub(crate) type Lanes = u8x16;

/// The entries at the places in each lane, and 0 for a place from 0x80 on.
#[inline(always)]
pub(crate) fn look_up(table: Lanes, at: Lanes) -> Lanes
    requires { (j : ℕ) → j < 16 → IsTrue (is_place (slice_index at j)) }
    ensures { (j : ℕ) → j < 16 → slice_index result j ≡ read table (slice_index at j) }
{
    table.swizzle_dyn(at)
}

/// The sum of the bytes in each lane.
#[inline(always)]
pub(crate) fn sum(a: Lanes, b: Lanes) -> Lanes
    ensures { (j : ℕ) → j < 16 → slice_index result j ≡ bit_xor (slice_index a j) (slice_index b j) }
{
    a ^ b
}

/// A byte in all lanes.
#[inline(always)]
pub(crate) fn splat(byte: u8) -> Lanes
    ensures { (j : ℕ) → j < 16 → slice_index result j ≡ byte }
{
    Lanes::splat(byte)
}

/// The high nibbles.
#[inline(always)]
pub(crate) fn high(v: Lanes) -> Lanes
    ensures { (j : ℕ) → j < 16 → slice_index result j ≡ slice_index v j / 16 }
{
    v >> 4
}

/// The low nibbles.
#[inline(always)]
pub(crate) fn low(v: Lanes) -> Lanes
    ensures { (j : ℕ) → j < 16 → slice_index result j ≡ bit_and (slice_index v j) 15 }
{
    v & Lanes::splat(15)
}

/// The two nibbles in which the inverse is linear, or 0x80 and more for an infinite one.
#[inline(always)]
pub(crate) fn halves(v: Lanes) -> (Lanes, Lanes)
    ensures p { (j : ℕ) → j < 16 → slice_index result.0 j ≡ first_half (slice_index v j) }
    ensures q { (j : ℕ) → j < 16 → slice_index result.1 j ≡ second_half (slice_index v j) }
{
    let inv = Lanes::from_array(INV);
    let i = high(v);
    let k = low(v);
    let j = sum(i, k);
    let over = look_up(Lanes::from_array(OVER), k);
    let p = sum(look_up(inv, sum(look_up(inv, i), over)), j);
    let q = sum(look_up(inv, sum(look_up(inv, j), over)), i);
    (p, q)
}

/// From the AES field to the tower.
#[inline(always)]
pub(crate) fn to_tower(x: Lanes) -> Lanes
    ensures { (j : ℕ) → j < 16 → slice_index result j ≡ to_tower (slice_index x j) }
{
    sum(
        look_up(Lanes::from_array(IN_LOW), low(x)),
        look_up(Lanes::from_array(IN_HIGH), high(x)),
    )
}

/// Twice and three times the S-box less its constant, all in the tower.
#[inline(always)]
pub(crate) fn multiples(v: Lanes) -> (Lanes, Lanes)
    ensures twice { (j : ℕ) → j < 16 → slice_index result.0 j ≡ twice_sub (slice_index v j) }
    ensures thrice { (j : ℕ) → j < 16 → slice_index result.1 j ≡ thrice_sub (slice_index v j) }
{
    let (p, q) = halves(v);
    let twice = sum(
        look_up(Lanes::from_array(TWICE_P), p),
        look_up(Lanes::from_array(TWICE_Q), q),
    );
    let thrice = sum(
        look_up(Lanes::from_array(THRICE_P), p),
        look_up(Lanes::from_array(THRICE_Q), q),
    );
    (twice, thrice)
}

/// The S-box less its constant, from the tower to the AES field.
#[inline(always)]
pub(crate) fn last_sub(v: Lanes) -> Lanes
    ensures { (j : ℕ) → j < 16 → slice_index result j ≡ last_sub (slice_index v j) }
{
    let (p, q) = halves(v);
    sum(
        look_up(Lanes::from_array(LAST_P), p),
        look_up(Lanes::from_array(LAST_Q), q),
    )
}

/// The S-box of sixteen bytes.
#[inline(always)]
pub(crate) fn sub(x: Lanes) -> Lanes
    ensures { (j : ℕ) → j < 16 → slice_index result j ≡ sub_byte (slice_index x j) }
{
    sum(last_sub(to_tower(x)), Lanes::splat(0x63))
}
