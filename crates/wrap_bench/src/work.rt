//! What is measured.
ghost use Rattle.std.specs.Prelude.{◌≡◌, ◌<◌, ◌≤◌, length};
ghost use Rattle.aes_core.specs.Schedules.{KeySchedule};

use aes_core::Schedule;
use key_wrap::wrap;

/// The first bytes of the last of `count` wrappings under a key of 32 zero bytes, of which the first is that of 32
/// zero bytes.
pub fn rewrapped(count: u32) -> [u8; 16] {
    let mut schedule = Schedule::empty();
    schedule.expand(&[0; 32]);
    let mut buf = [0; 80];
    for _ in 0..count {
        wrap(&schedule, &mut buf, 32);
    }
    schedule.wipe();
    let mut front = [0; 16];
    front.copy_from_slice(&buf[..16]);
    front
}
