//! The inverse cipher on one block: lane r holds byte r.
ghost use Rattle.std.specs.Prelude.{◌≡◌, ◌<◌, ◌≤◌, ℕ, slice_index, [], ◌∷◌};
ghost use Rattle.aes_spec.specs.Field.{inv_sub_byte};
ghost use Rattle.aes_spec.specs.Aes.{inv_sub_bytes, inv_shift_rows, inv_mix_columns, add_round_key, inverse_cipher};
ghost use Rattle.aes_spec.specs.Key.{words_state};
ghost use Rattle.aes_lanes.specs.Nibbles.{by_nibbles};

use crate::keys::round_key;
use crate::nibbles::{Lanes, halves, high, look_up, low, sum};
use crate::single::{turned_1, turned_2, turned_3};
use crate::tables::{
    INVERSE_P, INVERSE_Q, TIMES_9_HIGH, TIMES_9_LOW, TIMES_11_HIGH, TIMES_11_LOW, TIMES_13_HIGH,
    TIMES_13_LOW, TIMES_14_HIGH, TIMES_14_LOW, UNSUB_HIGH, UNSUB_LOW,
};
use std::simd::prelude::*;

/// The sum of an entry for the low and one for the high nibble of each byte.
#[inline(always)]
fn by_nibbles(lows: [u8; 16], highs: [u8; 16], v: Lanes) -> Lanes
    ensures { (j : ℕ) → j < 16 → slice_index result j ≡ by_nibbles lows highs (slice_index v j) }
{
    sum(
        look_up(Lanes::from_array(lows), low(v)),
        look_up(Lanes::from_array(highs), high(v)),
    )
}

/// INVSBOX() of each byte (FIPS 197, section 5.3.2).
#[inline(always)]
fn inverse_sub(v: Lanes) -> Lanes
    ensures { (j : ℕ) → j < 16 → slice_index result j ≡ inv_sub_byte (slice_index v j) }
{
    let (p, q) = halves(by_nibbles(UNSUB_LOW, UNSUB_HIGH, v));
    sum(
        look_up(Lanes::from_array(INVERSE_P), p),
        look_up(Lanes::from_array(INVERSE_Q), q),
    )
}

/// INVSHIFTROWS() (section 5.3.1).
#[inline(always)]
fn shifted_back(v: Lanes) -> Lanes
    ensures { result ≡ inv_shift_rows v }
{
    v.shuffle(v, [0, 13, 10, 7, 4, 1, 14, 11, 8, 5, 2, 15, 12, 9, 6, 3])
}

/// INVSHIFTROWS() and INVSUBBYTES().
#[inline(always)]
fn unsubstituted(v: Lanes) -> Lanes
    ensures { result ≡ inv_sub_bytes (inv_shift_rows v) }
{
    inverse_sub(shifted_back(v))
}

/// INVMIXCOLUMNS() (section 5.3.3).
#[inline(always)]
fn unmixed(v: Lanes) -> Lanes
    ensures { result ≡ inv_mix_columns v }
{
    let nine = by_nibbles(TIMES_9_LOW, TIMES_9_HIGH, v);
    let eleven = by_nibbles(TIMES_11_LOW, TIMES_11_HIGH, v);
    let thirteen = by_nibbles(TIMES_13_LOW, TIMES_13_HIGH, v);
    let fourteen = by_nibbles(TIMES_14_LOW, TIMES_14_HIGH, v);
    let front = sum(fourteen, turned_1(eleven));
    let back = sum(turned_2(thirteen), turned_3(nine));
    sum(front, back)
}

/// ADDROUNDKEY() (section 5.1.4).
#[inline(always)]
fn add_key(v: Lanes, key: [u8; 16]) -> Lanes
    ensures { result ≡ add_round_key key v }
{
    sum(v, Lanes::from_array(key))
}

/// INVCIPHER() of one block under the round keys of these words (FIPS 197, section 5.3).
pub fn deciphered(words: &[[u8; 4]; 60], rounds: usize, block: [u8; 16]) -> [u8; 16]
    requires some { 0 < rounds }
    requires most { rounds ≤ 14 }
    ensures { result ≡ inverse_cipher (words_state words.now) rounds block }
{
    let mut state = unsubstituted(add_key(Lanes::from_array(block), round_key(words, rounds)));
    for done in 1..rounds {
        let unkeyed = add_key(state, round_key(words, rounds - done));
        state = unsubstituted(unmixed(unkeyed));
    }
    add_key(state, round_key(words, 0)).to_array()
}
