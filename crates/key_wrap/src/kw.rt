//! KW: wrapping of whole semiblocks (SP 800-38F, section 6.2).
ghost use Rattle.std.specs.Prelude.{◌≡◌, ◌≤◌, ◌<◌, ◌+◌, ◌-◌, ◌%◌, ◌↔◌, ℕ, List, take, drop, IsNone, IfNone, IfSome};
ghost use Rattle.bits_core.specs.ByteList.{zeros, zero_padded};
ghost use Rattle.aes_core.specs.Key.{aes};
ghost use Rattle.aes_core.specs.Schedules.{IsExpanded};
ghost use Rattle.key_wrap.specs.Unwrapping.{unkw, ShowsValue};
ghost use Rattle.key_wrap.specs.Wrapping.{kw, IsKwOf};

use crate::buffer::{put_header, take_header};
use crate::semiblocks::{unwrap_semiblocks, wrap_semiblocks};
use aes_core::Schedule;
use bits_core::{same, wipe};

/// ICV1 of section 6.2.
const CHECK_VALUE: [u8; 8] = [0xa6; 8];

/// Wraps the first `length` bytes of `buf` under the key that `schedule` was expanded from, and
/// answers the length of the wrapping, 8 bytes more. The wrapping stands at the front of `buf`, with
/// zeros after it (SP 800-38F, algorithm 3).
///
/// `length` is a multiple of 8 from 16 to 64.
pub fn wrap(schedule: &Schedule, buf: &mut [u8; 80], length: usize) -> usize
    requires expanded { 0 < schedule.now.rounds }
    requires least { 16 ≤ length }
    requires most { length ≤ 64 }
    requires whole { length % 8 ≡ 0 }
    ensures size { result ≡ length + 8 }
    ensures wrapped { (key : List ℕ) → IsExpanded schedule.now key → buf.new ≡ zero_padded 80 (kw (aes key) (take length buf.old)) }
{
    put_header(buf, &CHECK_VALUE, length);
    wrap_semiblocks(schedule, &mut buf[..length + 8]);
    length + 8
}

/// Unwraps the first `length` bytes of `buf` and answers the length of the plaintext, 8 bytes less,
/// which stands at the front of `buf` with zeros after it (SP 800-38F, algorithm 4).
///
/// None comes exactly where no plaintext of 16 to 64 bytes has these bytes as its wrapping under the
/// key that `schedule` was expanded from; then `buf` is all zero. `length` is a multiple of 8 from 24
/// to 72.
pub fn unwrap(schedule: &Schedule, buf: &mut [u8; 80], length: usize) -> Option<usize>
    requires expanded { 0 < schedule.now.rounds }
    requires least { 24 ≤ length }
    requires most { length ≤ 72 }
    requires whole { length % 8 ≡ 0 }
    ensures found { (key : List ℕ) → IsExpanded schedule.now key
        → IfSome result (λ size. IsKwOf key (take length buf.old) (take size buf.new)) }
    ensures refused { (key : List ℕ) → IsExpanded schedule.now key
        → IsNone result ↔ ((p : List ℕ) → ¬ (IsKwOf key (take length buf.old) p)) }
    ensures value { (key : List ℕ) → IsExpanded schedule.now key → ShowsValue (unkw key (take length buf.old)) result buf.new }
    ensures size { IfSome result (λ size. size + 8 ≡ length) }
    ensures padded { IfSome result (λ size. drop size buf.new ≡ zeros (80 - size)) }
    ensures wiped { IfNone result (buf.new ≡ zeros 80) }
{
    unwrap_semiblocks(schedule, &mut buf[..length]);
    if same(&buf[..8], &CHECK_VALUE) {
        take_header(buf, length - 8);
        Some(length - 8)
    } else {
        wipe(buf);
        None
    }
}
