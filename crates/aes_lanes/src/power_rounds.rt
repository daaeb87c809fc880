//! The cipher on sixteen blocks with SBOX() as a power: vector r holds byte r of each.
ghost use Rattle.std.specs.Prelude.{◌≡◌, ◌<◌, ◌≤◌, ℕ, List, bit_xor, slice_index, slice_index_or, []};
ghost use Rattle.aes_spec.specs.Field.{times, sub_byte};
ghost use Rattle.aes_spec.specs.Aes.{IsState, add_round_key, mix_columns, shift_rows, sub_bytes, cipher};
ghost use Rattle.aes_spec.specs.Key.{words_state};
ghost use Rattle.aes_lanes.specs.Rounds.{byte, IsBlock};

use crate::keys::{round_key, spread};
use crate::nibbles::{Lanes, sum};
use crate::powers::{double, sub};
use crate::sixteen::Blocks;
use std::simd::prelude::*;

/// Round key `round`, in all lanes.
fn spread_key(words: &[[u8; 4]; 60], round: usize) -> Blocks
    requires { round < 15 }
    ensures { (j : ℕ) → j < 16 → IsBlock result j (words_state words.now round) }
{
    spread(Lanes::from_array(round_key(words, round)))
}

/// ADDROUNDKEY() (FIPS 197, section 5.1.4).
fn keyed(s: &Blocks, k: &Blocks) -> Blocks
    ensures { (j : ℕ) (state key : List ℕ) → j < 16 → IsBlock s.now j state → IsBlock k.now j key → IsBlock result j (add_round_key key state) }
{
    [
        sum(s[0], k[0]),
        sum(s[1], k[1]),
        sum(s[2], k[2]),
        sum(s[3], k[3]),
        sum(s[4], k[4]),
        sum(s[5], k[5]),
        sum(s[6], k[6]),
        sum(s[7], k[7]),
        sum(s[8], k[8]),
        sum(s[9], k[9]),
        sum(s[10], k[10]),
        sum(s[11], k[11]),
        sum(s[12], k[12]),
        sum(s[13], k[13]),
        sum(s[14], k[14]),
        sum(s[15], k[15]),
    ]
}

/// SUBBYTES() (section 5.1.1).
fn substituted(s: &Blocks) -> Blocks
    ensures { (r j : ℕ) → r < 16 → j < 16 → byte result j r ≡ sub_byte (byte s.now j r) }
{
    let mut t = *s;
    for r in 0..16usize {
        let v = sub(s[r]);
        t[r] = v;
    }
    t
}

/// SHIFTROWS() (section 5.1.2).
fn shifted(s: &Blocks) -> Blocks
    ensures { (j : ℕ) (state : List ℕ) → j < 16 → IsBlock s.now j state → IsBlock result j (shift_rows state) }
{
    [
        s[0], s[5], s[10], s[15], s[4], s[9], s[14], s[3], s[8], s[13], s[2], s[7], s[12], s[1],
        s[6], s[11],
    ]
}

/// A column of MIXCOLUMNS() (section 5.1.3).
#[inline(always)]
fn mixed_column(a: Lanes, b: Lanes, c: Lanes, d: Lanes) -> (Lanes, Lanes, Lanes, Lanes)
    ensures first { (j : ℕ) → j < 16 → slice_index result.0 j ≡ bit_xor (bit_xor (times 2 (slice_index a j)) (times 3 (slice_index b j))) (bit_xor (times 1 (slice_index c j)) (times 1 (slice_index d j))) }
    ensures second { (j : ℕ) → j < 16 → slice_index result.1 j ≡ bit_xor (bit_xor (times 1 (slice_index a j)) (times 2 (slice_index b j))) (bit_xor (times 3 (slice_index c j)) (times 1 (slice_index d j))) }
    ensures third { (j : ℕ) → j < 16 → slice_index result.2 j ≡ bit_xor (bit_xor (times 1 (slice_index a j)) (times 1 (slice_index b j))) (bit_xor (times 2 (slice_index c j)) (times 3 (slice_index d j))) }
    ensures fourth { (j : ℕ) → j < 16 → slice_index result.3 j ≡ bit_xor (bit_xor (times 3 (slice_index a j)) (times 1 (slice_index b j))) (bit_xor (times 1 (slice_index c j)) (times 2 (slice_index d j))) }
{
    let a2 = double(a);
    let b2 = double(b);
    let c2 = double(c);
    let d2 = double(d);
    let a3 = sum(a2, a);
    let b3 = sum(b2, b);
    let c3 = sum(c2, c);
    let d3 = sum(d2, d);
    let first = sum(sum(a2, b3), sum(c, d));
    let second = sum(sum(a, b2), sum(c3, d));
    let third = sum(sum(a, b), sum(c2, d3));
    let fourth = sum(sum(a3, b), sum(c, d2));
    (first, second, third, fourth)
}

/// MIXCOLUMNS().
fn mixed(s: &Blocks) -> Blocks
    ensures { (j : ℕ) (state : List ℕ) → j < 16 → IsBlock s.now j state → IsBlock result j (mix_columns state) }
{
    let (r0, r1, r2, r3) = mixed_column(s[0], s[1], s[2], s[3]);
    let (r4, r5, r6, r7) = mixed_column(s[4], s[5], s[6], s[7]);
    let (r8, r9, r10, r11) = mixed_column(s[8], s[9], s[10], s[11]);
    let (r12, r13, r14, r15) = mixed_column(s[12], s[13], s[14], s[15]);
    [
        r0, r1, r2, r3, r4, r5, r6, r7, r8, r9, r10, r11, r12, r13, r14, r15,
    ]
}

/// SUBBYTES() and SHIFTROWS().
fn shifted_sub(s: &Blocks) -> Blocks
    ensures { (j : ℕ) (state : List ℕ) → j < 16 → IsBlock s.now j state → IsBlock result j (shift_rows (sub_bytes state)) }
{
    shifted(&substituted(s))
}

/// CIPHER() of sixteen blocks under the round keys of these words (section 5.1).
pub(crate) fn enciphered(words: &[[u8; 4]; 60], rounds: usize, start: &Blocks) -> Blocks
    requires some { 0 < rounds }
    requires most { rounds ≤ 14 }
    ensures { (j : ℕ) (block : List ℕ) → j < 16 → IsBlock start.now j block → IsBlock result j (cipher (words_state words.now) rounds block) }
{
    let mut state = keyed(start, &spread_key(words, 0));
    for round in 1..rounds {
        let unkeyed = mixed(&shifted_sub(&state));
        state = keyed(&unkeyed, &spread_key(words, round));
    }
    keyed(&shifted_sub(&state), &spread_key(words, rounds))
}
