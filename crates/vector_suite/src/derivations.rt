//! CMAC and key derivation over it, which are no calls of an engine.
ghost use Rattle.std.specs.Prelude.{◌≡◌, ◌≤◌, ◌<◌, ◌&&◌, bytes_eq, length, IsTrue};
ghost use Rattle.aes_core.specs.Schedules.{IsExpanded};
ghost use Rattle.bits_core.specs.Parameters.{is_aes_length};
ghost use Rattle.cmac_core.specs.Cmac.{cmac};
ghost use Rattle.cmac_core.specs.Derivation.{cmac_kdf};
ghost use Rattle.vector_suite.specs.Lengths.{are_derivable};

use crate::answers::equal;
use aes_core::Schedule;
use cmac_core::{Mode, cmac, kdf};

// Expands a key into a blank schedule.
fn expand(schedule: &mut Schedule, key: &[u8])
    requires { IsTrue (is_aes_length (length key.now)) }
    ensures expanded { IsExpanded schedule.new key.now }
    ensures ready { 0 < schedule.new.rounds }
{
    schedule.expand(key);
}

/// The CMAC of a text.
pub fn is_cmac(key: &[u8], text: &[u8], out: &[u8]) -> bool
    requires { IsTrue (is_aes_length (length key.now)) }
    ensures { result ≡ bytes_eq (cmac key.now text.now) out.now }
{
    let mut schedule = Schedule::empty();
    expand(&mut schedule, key);
    let mut made = [0; 16];
    cmac(&schedule, text, &mut made);
    schedule.wipe();
    equal(&made, out)
}

/// What is derived from a key by CMAC, so many bytes as `out` has, in `made`.
pub fn is_derived_by_cmac(
    mode: Mode,
    key: &[u8],
    label: &[u8],
    context: &[u8],
    out: &[u8],
    made: &mut [u8],
) -> bool
    requires allowed { IsTrue (is_aes_length (length key.now) && are_derivable (length label.now) (length context.now) (length out.now)) }
    requires made { length made.old ≡ length out.now }
    ensures { result ≡ bytes_eq (cmac_kdf mode key.now label.now context.now (length out.now)) out.now }
{
    let mut schedule = Schedule::empty();
    expand(&mut schedule, key);
    kdf(&schedule, mode, label, context, made);
    schedule.wipe();
    equal(made, out)
}
