//! The wrapping function W and its inverse, in place.
ghost use Rattle.std.specs.Prelude.{◌≡◌, ◌<◌, ◌≤◌, ◌+◌, ◌*◌, ℕ, List, length, take, drop};
ghost use Rattle.bits_core.specs.ByteList.{IsBytes};
ghost use Rattle.aes_core.specs.Key.{aes};
ghost use Rattle.aes_core.specs.Schedules.{IsExpanded};
ghost use Rattle.key_wrap.specs.Wrapping.{wrapped};
ghost use Rattle.key_wrap.specs.InPlace.{IsSemiblocks, block_at, laid, stepped};

use aes_core::Schedule;
use bits_core::xor_into;

/// The front and register `i` of a list of semiblocks, counted from 0.
#[inline(always)]
fn gather(text: &[u8], i: usize) -> [u8; 16]
    requires { 8 * i + 16 ≤ length text.now }
    ensures block { result ≡ block_at i text.now }
    ensures bytes { IsBytes result }
{
    let mut block = [0; 16];
    block[..8].copy_from_slice(&text[..8]);
    block[8..].copy_from_slice(&text[8 * i + 8..8 * i + 16]);
    block
}

/// Writes a block over the front and register `i`.
#[inline(always)]
fn scatter(text: &mut [u8], i: usize, block: &[u8; 16])
    requires { 8 * i + 16 ≤ length text.old }
    ensures { text.new ≡ laid (take 8 block.now) i (drop 8 block.now) text.old }
{
    text[..8].copy_from_slice(&block[..8]);
    text[8 * i + 8..8 * i + 16].copy_from_slice(&block[8..]);
}

/// Step `t` of W, which enciphers register `i`.
fn step(schedule: &Schedule, text: &mut [u8], i: usize, t: u64)
    requires rounds { 0 < schedule.now.rounds }
    requires within { 8 * i + 16 ≤ length text.old }
    ensures { (key : List ℕ) → IsExpanded schedule.now key → text.new ≡ stepped (aes key) t i text.old }
{
    let mut block = gather(text, i);
    schedule.encrypt(&mut block);
    xor_into(&mut block[..8], &t.to_be_bytes());
    scatter(text, i, &block);
}

/// Undoes step `t` of W.
fn unstep(schedule: &Schedule, text: &mut [u8], i: usize, t: u64)
    requires rounds { 0 < schedule.now.rounds }
    requires within { 8 * i + 16 ≤ length text.old }
    ensures opened { (key : List ℕ) → IsExpanded schedule.now key → text.old ≡ stepped (aes key) t i text.new }
    ensures bytes { IsBytes text.new }
{
    let mut block = gather(text, i);
    xor_into(&mut block[..8], &t.to_be_bytes());
    schedule.decrypt(&mut block);
    scatter(text, i, &block);
}

/// W of SP 800-38F, section 6.1, over 3 to 9 semiblocks.
pub(crate) fn wrap_semiblocks(schedule: &Schedule, text: &mut [u8])
    requires rounds { 0 < schedule.now.rounds }
    requires semiblocks { IsSemiblocks text.old }
    ensures { (key : List ℕ) → IsExpanded schedule.now key → text.new ≡ wrapped (aes key) text.old }
{
    let registers = text.len() / 8 - 1;
    for t in 0..6 * registers {
        step(schedule, text, t % registers, t as u64 + 1);
    }
}

/// The list whose W is this one (SP 800-38F, section 6.1, algorithm 2).
pub(crate) fn unwrap_semiblocks(schedule: &Schedule, text: &mut [u8])
    requires rounds { 0 < schedule.now.rounds }
    requires semiblocks { IsSemiblocks text.old }
    ensures opened { (key : List ℕ) → IsExpanded schedule.now key → text.old ≡ wrapped (aes key) text.new }
    ensures bytes { IsBytes text.new }
{
    let registers = text.len() / 8 - 1;
    for done in 0..6 * registers {
        let t = 6 * registers - done;
        unstep(schedule, text, (t - 1) % registers, t as u64);
    }
}
