//! GCTR of SP 800-38D, section 6.5, over AES.
ghost use Rattle.std.specs.Prelude.{◌≡◌, ◌≤◌, ◌<◌, ◌+◌, ◌-◌, ℕ, List, length, slice_index, bit_xor};
ghost use Rattle.aes_spec.specs.Key.{aes};
ghost use Rattle.aes_spec.specs.Gctr.{inc32, gctr};
ghost use Rattle.aes_core.specs.Schedules.{IsExpanded};

use crate::schedule::Schedule;

/// Adds the key stream from the block `start` to a text of any length. The last 32 bits of the
/// block are counted modulo 2^32.
pub fn gctr(schedule: &Schedule, start: &[u8; 16], text: &mut [u8])
    requires { 0 < schedule.now.rounds }
    ensures { (key : List ℕ) → IsExpanded schedule.now key → text.new ≡ gctr (aes key) start.now text.old }
{
    schedule.add_stream(start, text);
}

/// As `gctr`, by a kernel over lanes of bytes in which SBOX() is the power 254 of a byte and the affine
/// map, and no table is read at all: sixteen blocks at once, the rest block by block. Slower than `gctr`.
pub fn gctr_lanes(schedule: &Schedule, start: &[u8; 16], text: &mut [u8])
    requires { 0 < schedule.now.rounds }
    ensures { (key : List ℕ) → IsExpanded schedule.now key → text.new ≡ gctr (aes key) start.now text.old }
{
    schedule.add_stream_by_powers(start, text);
}

/// As `gctr`, block by block.
pub fn gctr_plain(schedule: &Schedule, start: &[u8; 16], text: &mut [u8])
    requires { 0 < schedule.now.rounds }
    ensures { (key : List ℕ) → IsExpanded schedule.now key → text.new ≡ gctr (aes key) start.now text.old }
{
    let mut counter = *start;
    let whole = text.len() / 16;
    for i in 0..whole {
        let mut stream = counter;
        schedule.encrypt(&mut stream);
        add_stream(text, 16 * i, 16, &stream);
        let after = next_block(counter);
        counter = after;
    }
    let rest = text.len() % 16;
    if rest == 0 {
        return;
    }
    schedule.encrypt(&mut counter);
    add_stream(text, 16 * whole, rest, &counter);
}

/// inc32 of SP 800-38D, section 6.2.
#[inline(always)]
fn next_block(block: [u8; 16]) -> [u8; 16]
    ensures { result ≡ inc32 block }
{
    let count = u32::from_be_bytes([block[12], block[13], block[14], block[15]]).wrapping_add(1);
    let [c0, c1, c2, c3] = count.to_be_bytes();
    [
        block[0], block[1], block[2], block[3], block[4], block[5], block[6], block[7], block[8],
        block[9], block[10], block[11], c0, c1, c2, c3,
    ]
}

/// Adds the first `count` bytes of a block of the stream to the text from place `at` on.
#[inline(always)]
fn add_stream(text: &mut [u8], at: usize, count: usize, stream: &[u8; 16])
    requires block { count ≤ 16 }
    requires within { at + count ≤ length text.old }
    ensures before { (p : ℕ) → p < at → slice_index text.new p ≡ slice_index text.old p }
    ensures added { (p : ℕ) → at ≤ p → p < at + count → slice_index text.new p ≡ bit_xor (slice_index text.old p) (slice_index stream.now (p - at)) }
    ensures after { (p : ℕ) → at + count ≤ p → slice_index text.new p ≡ slice_index text.old p }
{
    for i in 0..count {
        text[at + i] ^= stream[i];
    }
}
