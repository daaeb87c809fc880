//! The two subkeys.
ghost use Rattle.std.specs.Prelude.{◌≡◌, ◌<◌, ℕ, List};
ghost use Rattle.aes_core.specs.Schedules.{IsExpanded};
ghost use Rattle.cmac_core.specs.Cmac.{doubled, first_subkey, second_subkey};

use aes_core::Schedule;

/// The last byte of R128 (SP 800-38B, section 5.3).
const REDUCTION: u8 = 0x87;

/// Writes K1 and K2 of the key that was expanded (SP 800-38B, section 6.1).
pub fn subkeys(schedule: &Schedule, first: &mut [u8; 16], second: &mut [u8; 16])
    requires { 0 < schedule.now.rounds }
    ensures first { (key : List ℕ) → IsExpanded schedule.now key → first.new ≡ first_subkey key }
    ensures second { (key : List ℕ) → IsExpanded schedule.now key → second.new ≡ second_subkey key }
{
    *first = [0; 16];
    schedule.encrypt(first);
    double(first);
    *second = *first;
    double(second);
}

/// Shifts a block left by one bit, and adds R128 where the first bit was one.
fn double(block: &mut [u8; 16])
    ensures { block.new ≡ doubled block.old }
{
    let first_bit = block[0] >> 7;
    for i in 0usize..15 {
        block[i] = (block[i] << 1) + (block[i + 1] >> 7);
    }
    block[15] = (block[15] << 1) ^ (first_bit * REDUCTION);
}
