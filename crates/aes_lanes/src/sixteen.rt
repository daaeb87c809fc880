//! The cipher on sixteen blocks: vector r holds byte r of each.
ghost use Rattle.std.specs.Prelude.{◌≡◌, ◌<◌, ◌≤◌, ◌+◌, ◌*◌, ◌/◌, ◌%◌, ℕ, List, bit_xor, slice_index, slice_index_or, []};
ghost use Rattle.aes_spec.specs.Aes.{IsState, add_round_key, mix_columns, shift_rows, sub_bytes, mixed_rounds, cipher};
ghost use Rattle.aes_lanes.specs.Rounds.{gap, byte, IsInTower, IsKeyInTower, IsLastKey, IsBlock, AreKeys};

use crate::keys::Keys;
use crate::nibbles::{Lanes, last_sub, multiples, sum};
use std::simd::prelude::*;

/// Sixteen blocks, or a round key for each.
pub(crate) type Blocks = [Lanes; 16];

/// A column after SBOX() and MIXCOLUMNS(), less the constants. With d_i = {03} s_i + {02} s_(i+1) each of the four
/// sums is that of the three other d.
#[inline(always)]
fn column(a0: Lanes, a1: Lanes, a2: Lanes, a3: Lanes) -> (Lanes, Lanes, Lanes, Lanes)
    ensures first { (j : ℕ) → j < 16 → slice_index result.0 j ≡ bit_xor (bit_xor (gap (slice_index a1 j) (slice_index a2 j)) (gap (slice_index a2 j) (slice_index a3 j))) (gap (slice_index a3 j) (slice_index a0 j)) }
    ensures second { (j : ℕ) → j < 16 → slice_index result.1 j ≡ bit_xor (bit_xor (gap (slice_index a3 j) (slice_index a0 j)) (gap (slice_index a0 j) (slice_index a1 j))) (gap (slice_index a2 j) (slice_index a3 j)) }
    ensures third { (j : ℕ) → j < 16 → slice_index result.2 j ≡ bit_xor (bit_xor (gap (slice_index a3 j) (slice_index a0 j)) (gap (slice_index a0 j) (slice_index a1 j))) (gap (slice_index a1 j) (slice_index a2 j)) }
    ensures fourth { (j : ℕ) → j < 16 → slice_index result.3 j ≡ bit_xor (bit_xor (gap (slice_index a1 j) (slice_index a2 j)) (gap (slice_index a2 j) (slice_index a3 j))) (gap (slice_index a0 j) (slice_index a1 j)) }
{
    let (b0, c0) = multiples(a0);
    let (b1, c1) = multiples(a1);
    let (b2, c2) = multiples(a2);
    let (b3, c3) = multiples(a3);
    let d0 = sum(c0, b1);
    let d1 = sum(c1, b2);
    let d2 = sum(c2, b3);
    let d3 = sum(c3, b0);
    let e = sum(d1, d2);
    let f = sum(d3, d0);
    (sum(e, d3), sum(f, d2), sum(f, d1), sum(e, d0))
}

/// SUBBYTES(), SHIFTROWS(), MIXCOLUMNS() and ADDROUNDKEY() (FIPS 197, section 5.1).
#[inline(always)]
fn mixed_round(s: &Blocks, k: &Blocks) -> Blocks
    ensures { (j : ℕ) (state key : List ℕ) → j < 16 → IsState state → IsState key → IsInTower s.now j state → IsKeyInTower k.now j key → IsInTower result j (add_round_key key (mix_columns (shift_rows (sub_bytes state)))) }
{
    let (r0, r1, r2, r3) = column(s[0], s[5], s[10], s[15]);
    let (r4, r5, r6, r7) = column(s[4], s[9], s[14], s[3]);
    let (r8, r9, r10, r11) = column(s[8], s[13], s[2], s[7]);
    let (r12, r13, r14, r15) = column(s[12], s[1], s[6], s[11]);
    [
        sum(r0, k[0]),
        sum(r1, k[1]),
        sum(r2, k[2]),
        sum(r3, k[3]),
        sum(r4, k[4]),
        sum(r5, k[5]),
        sum(r6, k[6]),
        sum(r7, k[7]),
        sum(r8, k[8]),
        sum(r9, k[9]),
        sum(r10, k[10]),
        sum(r11, k[11]),
        sum(r12, k[12]),
        sum(r13, k[13]),
        sum(r14, k[14]),
        sum(r15, k[15]),
    ]
}

/// SUBBYTES(), SHIFTROWS() and ADDROUNDKEY().
#[inline(always)]
fn last_round(s: &Blocks, k: &Blocks) -> Blocks
    ensures { (j : ℕ) (state key : List ℕ) → j < 16 → IsState state → IsInTower s.now j state → IsLastKey k.now j key → IsBlock result j (add_round_key key (shift_rows (sub_bytes state))) }
{
    [
        sum(last_sub(s[0]), k[0]),
        sum(last_sub(s[5]), k[1]),
        sum(last_sub(s[10]), k[2]),
        sum(last_sub(s[15]), k[3]),
        sum(last_sub(s[4]), k[4]),
        sum(last_sub(s[9]), k[5]),
        sum(last_sub(s[14]), k[6]),
        sum(last_sub(s[3]), k[7]),
        sum(last_sub(s[8]), k[8]),
        sum(last_sub(s[13]), k[9]),
        sum(last_sub(s[2]), k[10]),
        sum(last_sub(s[7]), k[11]),
        sum(last_sub(s[12]), k[12]),
        sum(last_sub(s[1]), k[13]),
        sum(last_sub(s[6]), k[14]),
        sum(last_sub(s[11]), k[15]),
    ]
}

/// Enciphers sixteen blocks, to which the first round key was added, in the tower.
pub(crate) fn enciphered(keys: &Keys, rounds: usize, start: &Blocks) -> Blocks
    requires some { 0 < rounds }
    requires most { rounds ≤ 14 }
    ensures { (j : ℕ) (w : ℕ → List ℕ) (block : List ℕ) → j < 16 → IsState block → AreKeys keys.now j w rounds → IsInTower start.now j (add_round_key (w 0) block) → IsBlock result j (cipher w rounds block) }
{
    let mut state = *start;
    for round in 1..rounds {
        let mixed = mixed_round(&state, &keys[round]);
        state = mixed;
    }
    last_round(&state, &keys[rounds])
}

/// The first eight lanes of two vectors in turn.
#[inline(always)]
fn lower(a: Lanes, b: Lanes) -> Lanes
    ensures even { (m : ℕ) → m < 8 → slice_index result (2 * m) ≡ slice_index a m }
    ensures odd { (m : ℕ) → m < 8 → slice_index result (2 * m + 1) ≡ slice_index b m }
{
    a.shuffle(b, [0, 16, 1, 17, 2, 18, 3, 19, 4, 20, 5, 21, 6, 22, 7, 23])
}

/// The last eight lanes of two vectors in turn.
#[inline(always)]
fn upper(a: Lanes, b: Lanes) -> Lanes
    ensures even { (m : ℕ) → m < 8 → slice_index result (2 * m) ≡ slice_index a (8 + m) }
    ensures odd { (m : ℕ) → m < 8 → slice_index result (2 * m + 1) ≡ slice_index b (8 + m) }
{
    a.shuffle(
        b,
        [8, 24, 9, 25, 10, 26, 11, 27, 12, 28, 13, 29, 14, 30, 15, 31],
    )
}

/// Turns the eight bits of a place (its vector, then its lane) by one. Four times it transposes.
#[inline(always)]
fn turned(v: Blocks) -> Blocks
    ensures { (r j : ℕ) → r < 16 → j < 16 → byte result ((2 * j + r / 8) % 16) ((2 * r + j / 8) % 16) ≡ byte v j r }
{
    [
        lower(v[0], v[8]),
        upper(v[0], v[8]),
        lower(v[1], v[9]),
        upper(v[1], v[9]),
        lower(v[2], v[10]),
        upper(v[2], v[10]),
        lower(v[3], v[11]),
        upper(v[3], v[11]),
        lower(v[4], v[12]),
        upper(v[4], v[12]),
        lower(v[5], v[13]),
        upper(v[5], v[13]),
        lower(v[6], v[14]),
        upper(v[6], v[14]),
        lower(v[7], v[15]),
        upper(v[7], v[15]),
    ]
}

/// Lane j of vector r goes to lane r of vector j.
pub(crate) fn transposed(v: Blocks) -> Blocks
    ensures { (r j : ℕ) → r < 16 → j < 16 → byte result j r ≡ byte v r j }
{
    turned(turned(turned(turned(v))))
}
