//! Round keys, in the form that the rounds read.
ghost use Rattle.std.specs.Prelude.{◌≡◌, ◌<◌, ◌≤◌, ℕ, slice_index, slice_index_or, []};
ghost use Rattle.aes_spec.specs.Aes.{IsState};
ghost use Rattle.aes_spec.specs.Key.{words_state};
ghost use Rattle.aes_lanes.specs.Rounds.{byte, IsInTower, IsKeyInTower, IsLastKey, AreKeys};

use crate::nibbles::{Lanes, splat, sum, to_tower};
use crate::sixteen::Blocks;
use std::simd::prelude::*;

/// Each byte of each round key, in all lanes: in the tower but for the last round, and from
/// the second on with the S-box's constant.
pub(crate) type Keys = [Blocks; 15];

/// Round key `round` of the words of a schedule (FIPS 197, section 5.2).
#[inline(always)]
pub fn round_key(words: &[[u8; 4]; 60], round: usize) -> [u8; 16]
    requires { round < 15 }
    ensures { result ≡ words_state words.now round }
{
    let a = words[4 * round];
    let b = words[4 * round + 1];
    let c = words[4 * round + 2];
    let d = words[4 * round + 3];
    [
        a[0], a[1], a[2], a[3], b[0], b[1], b[2], b[3], c[0], c[1], c[2], c[3], d[0], d[1], d[2],
        d[3],
    ]
}

/// Each byte of a vector in all lanes of a vector of its own.
#[inline(always)]
pub(crate) fn spread(v: Lanes) -> Blocks
    ensures { (r j : ℕ) → r < 16 → j < 16 → byte result j r ≡ slice_index v r }
{
    let b = v.to_array();
    [
        splat(b[0]),
        splat(b[1]),
        splat(b[2]),
        splat(b[3]),
        splat(b[4]),
        splat(b[5]),
        splat(b[6]),
        splat(b[7]),
        splat(b[8]),
        splat(b[9]),
        splat(b[10]),
        splat(b[11]),
        splat(b[12]),
        splat(b[13]),
        splat(b[14]),
        splat(b[15]),
    ]
}

/// The first round key, in the tower.
#[inline(always)]
fn first_key(key: [u8; 16]) -> Blocks
    ensures state { IsState key }
    ensures lanes { (j : ℕ) → j < 16 → IsInTower result j key }
{
    spread(to_tower(Lanes::from_array(key)))
}

/// The key of a round with MIXCOLUMNS(): with the S-box's constant, in the tower.
#[inline(always)]
fn mixed_key(key: [u8; 16]) -> Blocks
    ensures state { IsState key }
    ensures lanes { (j : ℕ) → j < 16 → IsKeyInTower result j key }
{
    spread(to_tower(sum(Lanes::from_array(key), splat(0x63))))
}

/// The key of the last round, with the S-box's constant.
#[inline(always)]
fn last_key(key: [u8; 16]) -> Blocks
    ensures state { IsState key }
    ensures lanes { (j : ℕ) → j < 16 → IsLastKey result j key }
{
    spread(sum(Lanes::from_array(key), splat(0x63)))
}

/// The form of the round keys of these words.
pub(crate) fn prepared(words: &[[u8; 4]; 60], rounds: usize) -> Keys
    requires some { 0 < rounds }
    requires most { rounds ≤ 14 }
    ensures { (j : ℕ) → j < 16 → AreKeys result j (words_state words.now) rounds }
{
    let first = first_key(round_key(words, 0));
    let mut keys = [first; 15];
    for round in 1..rounds {
        let key = mixed_key(round_key(words, round));
        keys[round] = key;
    }
    keys[rounds] = last_key(round_key(words, rounds));
    keys
}
