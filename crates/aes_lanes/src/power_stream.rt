//! The key stream of counter mode by the cipher with SBOX() as a power, added to a text.
ghost use Rattle.std.specs.Prelude.{◌≡◌, ◌≤◌, ◌<◌, ◌+◌, ◌*◌, ◌/◌, ℕ, length, slice_index};
ghost use Rattle.aes_spec.specs.Aes.{cipher};
ghost use Rattle.aes_spec.specs.Key.{words_state};
ghost use Rattle.aes_spec.specs.Gctr.{gctr};
ghost use Rattle.aes_lanes.specs.Rounds.{byte, IsBlock};
ghost use Rattle.aes_lanes.specs.Streams.{with_count, Adds};

use crate::nibbles::splat;
use crate::power_rounds::enciphered;
use crate::sixteen::{Blocks, transposed};
use crate::stream::{GROUP, add_blocks, add_singles, count_at, counts};
use std::simd::prelude::*;

/// Sixteen counter blocks, from `count` on.
fn counters(start: &[u8; 16], count: u32) -> Blocks
    ensures { (j : ℕ) → j < 16 → IsBlock result j (with_count start.now (count + j)) }
{
    let (fourth, third, second, first) = counts(count);
    [
        splat(start[0]),
        splat(start[1]),
        splat(start[2]),
        splat(start[3]),
        splat(start[4]),
        splat(start[5]),
        splat(start[6]),
        splat(start[7]),
        splat(start[8]),
        splat(start[9]),
        splat(start[10]),
        splat(start[11]),
        fourth,
        third,
        second,
        first,
    ]
}

/// Sixteen blocks of the stream, from `count` on.
fn group(words: &[[u8; 4]; 60], rounds: usize, start: &[u8; 16], count: u32) -> Blocks
    requires some { 0 < rounds }
    requires most { rounds ≤ 14 }
    ensures { (b p : ℕ) → b < 16 → p < 16 → byte result p b ≡ slice_index (cipher (words_state words.now) rounds (with_count start.now (count + b))) p }
{
    transposed(enciphered(words, rounds, &counters(start, count)))
}

/// Adds the stream to the whole groups of sixteen blocks.
fn add_groups(words: &[[u8; 4]; 60], rounds: usize, start: &[u8; 16], text: &mut [u8])
    requires some { 0 < rounds }
    requires most { rounds ≤ 14 }
    ensures { Adds (cipher (words_state words.now) rounds) start.now text.old text.new 0 (256 * (length text.old / 256)) }
{
    for i in 0..text.len() / 256 {
        let count = count_at(start, GROUP * i);
        add_blocks(text, 256 * i, &group(words, rounds, start, count));
    }
}

/// As `add_stream`, with SBOX() as the power 254 of a byte; what is left after the whole groups goes block
/// by block.
pub fn add_stream_by_powers(words: &[[u8; 4]; 60], rounds: usize, start: &[u8; 16], text: &mut [u8])
    requires some { 0 < rounds }
    requires most { rounds ≤ 14 }
    ensures { text.new ≡ gctr (cipher (words_state words.now) rounds) start.now text.old }
{
    add_groups(words, rounds, start, text);
    let done = GROUP * (text.len() / 256);
    add_singles(words, rounds, start, text, done);
}
