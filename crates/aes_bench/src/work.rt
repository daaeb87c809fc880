//! What is measured. Each turn takes the bytes that the one before gave, so that none can be left out.
ghost use Rattle.std.specs.Prelude.{◌≡◌, ◌<◌, ◌≤◌, length, IsTrue};
ghost use Rattle.bits_core.specs.Parameters.{is_aes_length};
ghost use Rattle.aes_core.specs.Schedules.{KeySchedule};

use aes_core::{Schedule, gctr, gctr_lanes};

/// A call that is measured.
#[derive(Clone, Copy)]
pub enum Work {
    /// Counter mode over the whole text.
    Stream,
    /// Counter mode over 1 KiB.
    Kibibyte,
    /// Counter mode over the whole text by `gctr_lanes`.
    Lanes,
    /// One block enciphered.
    Encrypt,
    /// One block deciphered.
    Decrypt,
    /// A key's set-up, and one block enciphered under it.
    Rekey,
}

impl Work {
    /// The work with a name.
    pub fn of(name: &str) -> Option<Work> {
        match name {
            "stream" => Some(Work::Stream),
            "kibibyte" => Some(Work::Kibibyte),
            "lanes" => Some(Work::Lanes),
            "encrypt" => Some(Work::Encrypt),
            "decrypt" => Some(Work::Decrypt),
            "rekey" => Some(Work::Rekey),
            _ => None,
        }
    }
}

/// The start of turn `i`.
fn start(i: u32) -> [u8; 16] {
    let [a, b, c, d] = i.to_be_bytes();
    [a, b, c, d, 0, 0, 0, 0, 0, 0, 0, 0, 0, 0, 0, 0]
}

/// Adds `count` key streams to the text.
pub fn streams(schedule: &Schedule, text: &mut [u8], count: u32)
    requires { 0 < schedule.now.rounds }
{
    for i in 0..count {
        gctr(schedule, &start(i), text);
    }
}

/// Adds `count` key streams to the text by `gctr_lanes`.
pub fn streams_by_lanes(schedule: &Schedule, text: &mut [u8], count: u32)
    requires { 0 < schedule.now.rounds }
{
    for i in 0..count {
        gctr_lanes(schedule, &start(i), text);
    }
}

/// A block enciphered `count` times.
pub fn enciphered(schedule: &Schedule, count: u32) -> [u8; 16]
    requires { 0 < schedule.now.rounds }
{
    let mut block = [0u8; 16];
    for _ in 0..count {
        schedule.encrypt(&mut block);
    }
    block
}

/// A block deciphered `count` times.
pub fn deciphered(schedule: &Schedule, count: u32) -> [u8; 16]
    requires { 0 < schedule.now.rounds }
{
    let mut block = [0u8; 16];
    for _ in 0..count {
        schedule.decrypt(&mut block);
    }
    block
}

/// A block enciphered `count` times, each time under a key that begins with the block.
pub fn rekeyed(key_bytes: usize, count: u32) -> [u8; 16]
    requires { IsTrue (is_aes_length key_bytes) }
{
    let mut block = [0u8; 16];
    let mut key = [7u8; 32];
    for _ in 0..count {
        for place in 0..16usize {
            key[place] = block[place];
        }
        let mut schedule = Schedule::empty();
        schedule.expand(&key[..key_bytes]);
        schedule.encrypt(&mut block);
    }
    block
}
