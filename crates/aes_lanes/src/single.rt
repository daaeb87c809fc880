//! The cipher on one block: lane r holds byte r.
ghost use Rattle.std.specs.Prelude.{◌≡◌, ◌<◌, ◌≤◌, ℕ, List, bit_xor, slice_index, slice_index_or, [], ◌∷◌};
ghost use Rattle.aes_spec.specs.Aes.{IsState, add_round_key, mix_columns, shift_rows, sub_bytes, cipher};
ghost use Rattle.aes_spec.specs.Key.{words_state, sub_word};
ghost use Rattle.aes_lanes.specs.Rounds.{IsLanes, IsKeyLanes};

use crate::keys::round_key;
use crate::nibbles::{Lanes, last_sub, multiples, splat, sub, sum, to_tower};
use std::simd::prelude::*;

/// SHIFTROWS() (FIPS 197, section 5.1.2).
#[inline(always)]
fn shifted(v: Lanes) -> Lanes
    ensures { result ≡ shift_rows v }
{
    v.shuffle(v, [0, 5, 10, 15, 4, 9, 14, 3, 8, 13, 2, 7, 12, 1, 6, 11])
}

/// The bytes of each column, each one row up.
#[inline(always)]
pub(crate) fn turned_1(v: Lanes) -> Lanes
    ensures { result ≡ slice_index v 1 ∷ slice_index v 2 ∷ slice_index v 3 ∷ slice_index v 0 ∷ slice_index v 5 ∷ slice_index v 6 ∷ slice_index v 7 ∷ slice_index v 4 ∷ slice_index v 9 ∷ slice_index v 10 ∷ slice_index v 11 ∷ slice_index v 8 ∷ slice_index v 13 ∷ slice_index v 14 ∷ slice_index v 15 ∷ slice_index v 12 ∷ [] }
{
    v.shuffle(v, [1, 2, 3, 0, 5, 6, 7, 4, 9, 10, 11, 8, 13, 14, 15, 12])
}

/// Two rows up.
#[inline(always)]
pub(crate) fn turned_2(v: Lanes) -> Lanes
    ensures { result ≡ slice_index v 2 ∷ slice_index v 3 ∷ slice_index v 0 ∷ slice_index v 1 ∷ slice_index v 6 ∷ slice_index v 7 ∷ slice_index v 4 ∷ slice_index v 5 ∷ slice_index v 10 ∷ slice_index v 11 ∷ slice_index v 8 ∷ slice_index v 9 ∷ slice_index v 14 ∷ slice_index v 15 ∷ slice_index v 12 ∷ slice_index v 13 ∷ [] }
{
    v.shuffle(v, [2, 3, 0, 1, 6, 7, 4, 5, 10, 11, 8, 9, 14, 15, 12, 13])
}

/// Three rows up.
#[inline(always)]
pub(crate) fn turned_3(v: Lanes) -> Lanes
    ensures { result ≡ slice_index v 3 ∷ slice_index v 0 ∷ slice_index v 1 ∷ slice_index v 2 ∷ slice_index v 7 ∷ slice_index v 4 ∷ slice_index v 5 ∷ slice_index v 6 ∷ slice_index v 11 ∷ slice_index v 8 ∷ slice_index v 9 ∷ slice_index v 10 ∷ slice_index v 15 ∷ slice_index v 12 ∷ slice_index v 13 ∷ slice_index v 14 ∷ [] }
{
    v.shuffle(v, [3, 0, 1, 2, 7, 4, 5, 6, 11, 8, 9, 10, 15, 12, 13, 14])
}

/// A round with MIXCOLUMNS(). With d_i = {03} s_i + {02} s_(i+1) each byte is the sum of the three other d of
/// its column.
#[inline(always)]
fn single_round(v: Lanes, k: Lanes) -> Lanes
    ensures { (s key : List ℕ) → IsState s → IsState key → IsLanes v s → IsKeyLanes k key → IsLanes result (add_round_key key (mix_columns (shift_rows (sub_bytes s)))) }
{
    let (twice, thrice) = multiples(shifted(v));
    let d = sum(thrice, turned_1(twice));
    sum(sum(sum(turned_1(d), turned_2(d)), turned_3(d)), k)
}

/// The last round.
#[inline(always)]
fn last_single(v: Lanes, k: Lanes) -> Lanes
    ensures { (s key : List ℕ) → IsState s → IsLanes v s → ((r : ℕ) → r < 16 → slice_index k r ≡ bit_xor (slice_index key r) 99) → (r : ℕ) → r < 16 → slice_index result r ≡ slice_index (add_round_key key (shift_rows (sub_bytes s))) r }
{
    sum(last_sub(shifted(v)), k)
}

/// A block, or the first round key, in the tower.
#[inline(always)]
fn first_lanes(key: [u8; 16]) -> Lanes
    ensures state { IsState key }
    ensures lanes { IsLanes result key }
{
    to_tower(Lanes::from_array(key))
}

/// The key of a round with MIXCOLUMNS(): with the S-box's constant, in the tower.
#[inline(always)]
fn mixed_lanes(key: [u8; 16]) -> Lanes
    ensures state { IsState key }
    ensures lanes { IsKeyLanes result key }
{
    to_tower(sum(Lanes::from_array(key), splat(0x63)))
}

/// The key of the last round, with the S-box's constant.
#[inline(always)]
fn last_lanes(key: [u8; 16]) -> Lanes
    ensures state { IsState key }
    ensures lanes { (r : ℕ) → r < 16 → slice_index result r ≡ bit_xor (slice_index key r) 99 }
{
    sum(Lanes::from_array(key), splat(0x63))
}

/// CIPHER() of one block under the round keys of these words (FIPS 197, section 5.1).
pub fn enciphered(words: &[[u8; 4]; 60], rounds: usize, block: [u8; 16]) -> [u8; 16]
    requires some { 0 < rounds }
    requires most { rounds ≤ 14 }
    ensures { result ≡ cipher (words_state words.now) rounds block }
{
    let mut state = sum(first_lanes(block), first_lanes(round_key(words, 0)));
    for round in 1..rounds {
        let mixed = single_round(state, mixed_lanes(round_key(words, round)));
        state = mixed;
    }
    last_single(state, last_lanes(round_key(words, rounds))).to_array()
}

/// SUBWORD() (FIPS 197, section 5.2).
pub fn sub_word(word: [u8; 4]) -> [u8; 4]
    ensures { result ≡ sub_word word }
{
    let bytes = sub(Lanes::from_array([
        word[0], word[1], word[2], word[3], 0, 0, 0, 0, 0, 0, 0, 0, 0, 0, 0, 0,
    ]))
    .to_array();
    [bytes[0], bytes[1], bytes[2], bytes[3]]
}
