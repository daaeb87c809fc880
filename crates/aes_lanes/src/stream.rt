//! The key stream of counter mode (SP 800-38D, section 6.5), added to a text.
ghost use Rattle.std.specs.Prelude.{◌≡◌, ◌≤◌, ◌<◌, ◌+◌, ◌-◌, ◌*◌, ◌/◌, ◌%◌, ◌^◌, ℕ, List, length, cond, nat_lt, bit_xor, slice_index, slice_index_or, []};
ghost use Rattle.aes_spec.specs.Aes.{IsState, add_round_key, cipher};
ghost use Rattle.aes_spec.specs.Key.{words_state};
ghost use Rattle.aes_spec.specs.Gctr.{gctr};
ghost use Rattle.aes_lanes.specs.Rounds.{byte, IsInTower, AreKeys};
ghost use Rattle.aes_lanes.specs.Streams.{with_count, count_of, Adds};

use crate::keys::{Keys, prepared};
use crate::nibbles::{Lanes, splat, sum, to_tower};
use crate::single;
use crate::sixteen::{Blocks, enciphered, transposed};
use std::simd::prelude::*;

/// The blocks of a group, which is enciphered at once.
pub(crate) const GROUP: usize = 16;

/// From so many bytes on a group at the end that isn't whole costs less at once than block by block.
const HALF_GROUP: usize = 128;

/// The sum of two counts in each lane, modulo 256.
#[inline(always)]
fn added(a: Lanes, b: Lanes) -> Lanes
    ensures { (j : ℕ) → j < 16 → slice_index result j ≡ (slice_index a j + slice_index b j) % 256 }
{
    a + b
}

/// 1 where `a` is below `b`.
#[inline(always)]
fn below(a: Lanes, b: Lanes) -> Lanes
    ensures { (j : ℕ) → j < 16 → slice_index result j ≡ cond (nat_lt (slice_index a j) (slice_index b j)) 1 0 }
{
    a.simd_lt(b).select(Lanes::splat(1), Lanes::splat(0))
}

/// The number of each lane.
#[inline(always)]
fn places() -> Lanes
    ensures { (j : ℕ) → j < 16 → slice_index result j ≡ j }
{
    Lanes::from_array([0, 1, 2, 3, 4, 5, 6, 7, 8, 9, 10, 11, 12, 13, 14, 15])
}

/// The bytes of sixteen counts from `count` on, the lowest last.
#[inline(always)]
pub(crate) fn counts(count: u32) -> (Lanes, Lanes, Lanes, Lanes)
    ensures fourth { (j : ℕ) → j < 16 → slice_index result.0 j ≡ (count + j) / 16777216 % 256 }
    ensures third { (j : ℕ) → j < 16 → slice_index result.1 j ≡ (count + j) / 65536 % 256 }
    ensures second { (j : ℕ) → j < 16 → slice_index result.2 j ≡ (count + j) / 256 % 256 }
    ensures first { (j : ℕ) → j < 16 → slice_index result.3 j ≡ (count + j) % 256 }
{
    let j = places();
    let first = added(splat((count % 256) as u8), j);
    let over = below(first, j);
    let second = added(splat((count / 256 % 256) as u8), over);
    let over2 = below(second, over);
    let third = added(splat((count / 65536 % 256) as u8), over2);
    let over3 = below(third, over2);
    let fourth = added(splat((count / 16777216) as u8), over3);
    (fourth, third, second, first)
}

/// Sixteen counter blocks from `count` on, as the cipher starts from them.
#[inline(always)]
fn counters(k: &Blocks, start: &[u8; 16], count: u32) -> Blocks
    ensures { (j : ℕ) (key : List ℕ) → j < 16 → IsState key → IsInTower k.now j key → IsInTower result j (add_round_key key (with_count start.now (count + j))) }
{
    let (fourth, third, second, first) = counts(count);
    [
        sum(to_tower(splat(start[0])), k[0]),
        sum(to_tower(splat(start[1])), k[1]),
        sum(to_tower(splat(start[2])), k[2]),
        sum(to_tower(splat(start[3])), k[3]),
        sum(to_tower(splat(start[4])), k[4]),
        sum(to_tower(splat(start[5])), k[5]),
        sum(to_tower(splat(start[6])), k[6]),
        sum(to_tower(splat(start[7])), k[7]),
        sum(to_tower(splat(start[8])), k[8]),
        sum(to_tower(splat(start[9])), k[9]),
        sum(to_tower(splat(start[10])), k[10]),
        sum(to_tower(splat(start[11])), k[11]),
        sum(to_tower(fourth), k[12]),
        sum(to_tower(third), k[13]),
        sum(to_tower(second), k[14]),
        sum(to_tower(first), k[15]),
    ]
}

/// Adds a block of the stream to the text from place `at` on.
#[inline(always)]
fn add_block(text: &mut [u8], at: usize, stream: Lanes)
    requires { at + 16 ≤ length text.old }
    ensures before { (p : ℕ) → p < at → slice_index text.new p ≡ slice_index text.old p }
    ensures within { (p : ℕ) → at ≤ p → p < at + 16 → slice_index text.new p ≡ bit_xor (slice_index text.old p) (slice_index stream (p - at)) }
    ensures after { (p : ℕ) → at + 16 ≤ p → slice_index text.new p ≡ slice_index text.old p }
{
    let sum = u8x16::from_slice(&text[at..]) ^ stream;
    sum.copy_to_slice(&mut text[at..]);
}

/// Adds sixteen blocks of the stream.
#[inline(always)]
pub(crate) fn add_blocks(text: &mut [u8], at: usize, stream: &Blocks)
    requires { at + 256 ≤ length text.old }
    ensures before { (p : ℕ) → p < at → slice_index text.new p ≡ slice_index text.old p }
    ensures within { (p : ℕ) → at ≤ p → p < at + 256 → slice_index text.new p ≡ bit_xor (slice_index text.old p) (byte stream.now ((p - at) % 16) ((p - at) / 16)) }
    ensures after { (p : ℕ) → at + 256 ≤ p → slice_index text.new p ≡ slice_index text.old p }
{
    for i in 0..16usize {
        add_block(text, at + 16 * i, stream[i]);
    }
}

/// Adds as much of sixteen blocks of the stream as the text has places from `at` on.
fn add_part(text: &mut [u8], at: usize, stream: &Blocks)
    requires begins { at ≤ length text.old }
    requires ends { length text.old < at + 256 }
    ensures before { (p : ℕ) → p < at → slice_index text.new p ≡ slice_index text.old p }
    ensures within { (p : ℕ) → at ≤ p → p < length text.old → slice_index text.new p ≡ bit_xor (slice_index text.old p) (byte stream.now ((p - at) % 16) ((p - at) / 16)) }
{
    for i in 0..text.len() - at {
        text[at + i] ^= stream[i / 16].to_array()[i % 16];
    }
}

/// Adds as much of a block of the stream as the text has places from `at` on.
fn add_tail(text: &mut [u8], at: usize, stream: &[u8; 16])
    requires begins { at ≤ length text.old }
    requires ends { length text.old < at + 16 }
    ensures before { (p : ℕ) → p < at → slice_index text.new p ≡ slice_index text.old p }
    ensures within { (p : ℕ) → at ≤ p → p < length text.old → slice_index text.new p ≡ bit_xor (slice_index text.old p) (slice_index stream.now (p - at)) }
{
    for i in 0..text.len() - at {
        text[at + i] ^= stream[i];
    }
}

/// The count of block `i`, from the start block's on, modulo 2^32.
#[inline(always)]
pub(crate) fn count_at(start: &[u8; 16], i: usize) -> u32
    ensures { result ≡ (count_of start.now + i) % 2 ^ 32 }
{
    u32::from_be_bytes([start[12], start[13], start[14], start[15]]).wrapping_add(
        (i % 4294967296) as u32,
    )
}

/// A block with a count in its last four bytes.
#[inline(always)]
fn with_count(start: &[u8; 16], count: u32) -> [u8; 16]
    ensures { result ≡ with_count start.now count }
{
    let [c0, c1, c2, c3] = count.to_be_bytes();
    [
        start[0], start[1], start[2], start[3], start[4], start[5], start[6], start[7], start[8],
        start[9], start[10], start[11], c0, c1, c2, c3,
    ]
}

/// Sixteen blocks of the stream, from `count` on.
#[inline(always)]
fn group(keys: &Keys, rounds: usize, start: &[u8; 16], count: u32) -> Blocks
    requires some { 0 < rounds }
    requires most { rounds ≤ 14 }
    ensures { (w : ℕ → List ℕ) (b p : ℕ) → b < 16 → p < 16 → AreKeys keys.now b w rounds → byte result p b ≡ slice_index (cipher w rounds (with_count start.now (count + b))) p }
{
    transposed(enciphered(keys, rounds, &counters(&keys[0], start, count)))
}

/// Adds the stream to the whole groups.
fn add_groups(keys: &Keys, rounds: usize, start: &[u8; 16], text: &mut [u8])
    requires some { 0 < rounds }
    requires most { rounds ≤ 14 }
    ensures { (w : ℕ → List ℕ) → ((j : ℕ) → j < 16 → AreKeys keys.now j w rounds) → Adds (cipher w rounds) start.now text.old text.new 0 (256 * (length text.old / 256)) }
{
    for i in 0..text.len() / 256 {
        let count = count_at(start, GROUP * i);
        add_blocks(text, 256 * i, &group(keys, rounds, start, count));
    }
}

/// Adds the stream to what is left after the whole groups.
fn add_last_group(keys: &Keys, rounds: usize, start: &[u8; 16], text: &mut [u8])
    requires some { 0 < rounds }
    requires most { rounds ≤ 14 }
    ensures { (w : ℕ → List ℕ) → ((j : ℕ) → j < 16 → AreKeys keys.now j w rounds) → Adds (cipher w rounds) start.now text.old text.new (256 * (length text.old / 256)) (length text.old) }
{
    let whole = text.len() / 256;
    let count = count_at(start, GROUP * whole);
    add_part(text, 256 * whole, &group(keys, rounds, start, count));
}

/// Adds the stream to the front of a text by groups, and answers to how many blocks: to all but those of an
/// end that is shorter than half a group.
fn add_by_groups(words: &[[u8; 4]; 60], rounds: usize, start: &[u8; 16], text: &mut [u8]) -> usize
    requires some { 0 < rounds }
    requires most { rounds ≤ 14 }
    ensures { Adds (cipher (words_state words.now) rounds) start.now text.old text.new 0 (16 * result) }
{
    let keys = prepared(words, rounds);
    let whole = text.len() / 256;
    add_groups(&keys, rounds, start, text);
    if text.len() % 256 < HALF_GROUP {
        return GROUP * whole;
    }
    add_last_group(&keys, rounds, start, text);
    GROUP * (whole + 1)
}

/// Adds block `i` of the stream.
fn add_single(words: &[[u8; 4]; 60], rounds: usize, start: &[u8; 16], text: &mut [u8], i: usize)
    requires some { 0 < rounds }
    requires most { rounds ≤ 14 }
    requires within { 16 * i < length text.old }
    ensures { Adds (cipher (words_state words.now) rounds) start.now text.old text.new (16 * i) (16 * i + 16) }
{
    let block = with_count(start, count_at(start, i));
    let stream = single::enciphered(words, rounds, block);
    let at = 16 * i;
    if text.len() - at < 16 {
        add_tail(text, at, &stream);
    } else {
        add_block(text, at, Lanes::from_array(stream));
    }
}

/// Adds the stream block by block, from block `first` on.
pub(crate) fn add_singles(
    words: &[[u8; 4]; 60],
    rounds: usize,
    start: &[u8; 16],
    text: &mut [u8],
    first: usize,
)
    requires some { 0 < rounds }
    requires most { rounds ≤ 14 }
    ensures { Adds (cipher (words_state words.now) rounds) start.now text.old text.new (16 * first) (length text.old) }
{
    for i in first..text.len().div_ceil(16) {
        add_single(words, rounds, start, text, i);
    }
}

/// Adds the key stream under the round keys of these words, from the block `start` on, to a text of any length.
pub fn add_stream(words: &[[u8; 4]; 60], rounds: usize, start: &[u8; 16], text: &mut [u8])
    requires some { 0 < rounds }
    requires most { rounds ≤ 14 }
    ensures { text.new ≡ gctr (cipher (words_state words.now) rounds) start.now text.old }
{
    let mut done = 0;
    if HALF_GROUP <= text.len() {
        done = add_by_groups(words, rounds, start, text);
    }
    add_singles(words, rounds, start, text, done);
}
