// Parameters, wrapped with padding (SP 800-38F, 6.3) in a buffer that is wiped again.
ghost use Rattle.std.specs.Prelude.{◌≡◌, ◌≤◌, ◌-◌, ◌↔◌, ℕ, List, length, take, drop, IsTrue};
ghost use Rattle.bits_core.specs.ByteList.{zeros};
ghost use Rattle.aes_core.specs.Schedules.{IsExpanded};
ghost use Rattle.key_wrap.specs.Wrapping.{IsKwpOf};
ghost use Rattle.vault_backup.specs.BackupForm.{wrapped_length};
ghost use Rattle.vault_backup.specs.Restoring.{IsWrappingOf};

use aes_core::Schedule;
use bits_core::wipe;
use key_wrap::unwrap_pad;

/// Lays bytes into the front of a buffer of zeros.
pub fn lay(buf: &mut [u8; 80], bytes: &[u8])
    requires zero { buf.old ≡ zeros 80 }
    requires within { length bytes.now ≤ 80 }
    ensures front { take (length bytes.now) buf.new ≡ bytes.now }
{
    buf[..bytes.len()].copy_from_slice(bytes);
}

/// Whether the bytes are the wrapping of a parameter of this length.
pub fn is_wrapping(schedule: &Schedule, wrapped: &[u8], size: usize) -> bool
    requires expanded { (key : List ℕ) × IsExpanded schedule.now key }
    requires some { 1 ≤ size }
    requires most { size ≤ 64 }
    requires long { length wrapped.now ≡ wrapped_length size }
    ensures { (key : List ℕ) → IsExpanded schedule.now key → IsTrue result ↔ IsWrappingOf key wrapped.now size }
{
    let mut buf = [0; 80];
    lay(&mut buf, wrapped);
    let found = unwrap_pad(schedule, &mut buf, wrapped.len());
    wipe(&mut buf);
    match found {
        Some(length) => length == size,
        None => false,
    }
}

/// Unwraps what is the wrapping of a parameter of this length, into the front of a buffer of zeros.
pub fn unwrap_into(buf: &mut [u8; 80], schedule: &Schedule, wrapped: &[u8], size: usize)
    requires zero { buf.old ≡ zeros 80 }
    requires some { 1 ≤ size }
    requires most { size ≤ 64 }
    requires long { length wrapped.now ≡ wrapped_length size }
    requires wrapping { (key : List ℕ) × IsExpanded schedule.now key × IsWrappingOf key wrapped.now size }
    ensures { (key : List ℕ) → IsExpanded schedule.now key → IsKwpOf key wrapped.now (take size buf.new) }
{
    lay(buf, wrapped);
    match unwrap_pad(schedule, buf, wrapped.len()) {
        Some(_) => {}
        None => unreachable!(),
    }
}
