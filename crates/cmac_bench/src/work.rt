//! What is measured.

use aes_core::Schedule;
use cmac_core::cmac;

/// The CMAC after `count` of them under a key of 32 zero bytes, each of the text that begins with the one before, as
/// far as it has room.
pub fn repeated(text: &mut [u8], count: u32) -> [u8; 16] {
    let mut schedule = Schedule::empty();
    schedule.expand(&[0; 32]);
    let mut mac = [0; 16];
    let front = text.len().min(16);
    for _ in 0..count {
        cmac(&schedule, text, &mut mac);
        text[..front].copy_from_slice(&mac[..front]);
    }
    schedule.wipe();
    mac
}
