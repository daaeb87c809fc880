//! The works over AES.
ghost use Rattle.std.specs.Prelude.{◌≡◌, ◌≤◌, ◌<◌, length};
ghost use Rattle.bits_core.specs.declared.limits.TheConstants.{LARGEST_PAYLOAD};
ghost use Rattle.aes_core.specs.Schedules.{KeySchedule};

use crate::hashed::folded;
use crate::work::Turn;
use aes_core::Schedule;
use gcm_mode::{Prepared, open, seal};
use key_wrap::{unwrap, unwrap_pad, wrap, wrap_pad};

/// The bytes that KW wraps, and those of the wrapping.
const WRAPPED: usize = 32;

const WRAPPING: usize = 40;

/// The bytes that KWP wraps, filled up to `WRAPPED` of them.
const PADDED: usize = 29;

/// The tag of the text, which is sealed and then opened with this tag or a wrong one.
pub fn sealed(turn: Turn, key: &[u8; 32], text: &mut [u8]) -> [u8; 16]
    requires { length text.old ≤ LARGEST_PAYLOAD }
{
    let mut prepared = Prepared::empty();
    prepared.fill(key);
    let mut tag = [0u8; 16];
    seal(&prepared, &[0u8; 12], &[0u8; 13], text, &mut tag);
    match turn {
        Turn::Make => {}
        Turn::TakeBack => {
            open(&prepared, &[0u8; 12], &[0u8; 13], text, &tag);
        }
        Turn::Refuse => {
            tag[15] ^= 1;
            open(&prepared, &[0u8; 12], &[0u8; 13], text, &tag);
        }
    }
    prepared.wipe();
    tag
}

/// The first bytes of the text, and zeros.
fn front(text: &[u8]) -> [u8; 80] {
    let mut buf = [0u8; 80];
    for place in 0..text.len().min(WRAPPED) {
        buf[place] = text[place];
    }
    buf
}

/// The sum of what stands in the buffer after the text's front was wrapped, and then unwrapped or refused.
pub fn wrapped(turn: Turn, key: &[u8; 32], text: &[u8]) -> [u8; 16] {
    let mut schedule = Schedule::empty();
    schedule.expand(key);
    let mut buf = front(text);
    wrap(&schedule, &mut buf, WRAPPED);
    match turn {
        Turn::Make => {}
        Turn::TakeBack => {
            unwrap(&schedule, &mut buf, WRAPPING);
        }
        Turn::Refuse => {
            buf[WRAPPING - 1] ^= 1;
            unwrap(&schedule, &mut buf, WRAPPING);
        }
    }
    schedule.wipe();
    folded(&buf)
}

/// As `wrapped`, with padding.
pub fn padded(turn: Turn, key: &[u8; 32], text: &[u8]) -> [u8; 16] {
    let mut schedule = Schedule::empty();
    schedule.expand(key);
    let mut buf = front(text);
    wrap_pad(&schedule, &mut buf, PADDED);
    match turn {
        Turn::Make => {}
        Turn::TakeBack => {
            unwrap_pad(&schedule, &mut buf, WRAPPING);
        }
        Turn::Refuse => {
            buf[WRAPPING - 1] ^= 1;
            unwrap_pad(&schedule, &mut buf, WRAPPING);
        }
    }
    schedule.wipe();
    folded(&buf)
}
