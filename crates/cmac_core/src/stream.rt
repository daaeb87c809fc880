//! CMAC, piece by piece and in one call.
ghost use Rattle.std.specs.Prelude.{◌≡◌, ◌<◌, ℕ, List, [], ◌∷◌, ◌++◌};
ghost use Rattle.aes_core.specs.Schedules.{IsExpanded};
ghost use Rattle.cmac_core.specs.Cmac.{cmac};
ghost use Rattle.cmac_core.specs.Streams.{HoldsText};

use crate::doubling::subkeys;
use aes_core::Schedule;
use bits_core::{wipe, xor_into};

/// The bytes of a block.
pub(crate) const BLOCK: usize = 16;

/// The first byte after a last block that isn't whole: one bit 1 and zeros.
const PADDING: u8 = 0x80;

/// A CMAC that takes its text piece by piece, under one key.
///
/// A full block waits until the next byte comes, since the last block is treated apart. A stream keeps
/// no subkey: `finish` makes them.
#[derive(Drop)]
pub struct CmacStream {
    block: [u8; 16],
    used: usize,
}

impl CmacStream {
    /// A stream that has taken no text. It begins with zeros under any key, so the schedule isn't read.
    pub fn new(_schedule: &Schedule) -> CmacStream
        ensures { (key : List ℕ) → HoldsText result key [] }
    {
        CmacStream {
            block: [0; 16],
            used: 0,
        }
    }

    /// Takes a piece of the text, of any length.
    pub fn update(&mut self, schedule: &Schedule, piece: &[u8])
        requires { 0 < schedule.now.rounds }
        ensures { (key text : List ℕ) → IsExpanded schedule.now key → HoldsText self.old key text
            → HoldsText self.new key (text ++ piece.now) }
    {
        for byte in piece {
            self.take_byte(schedule, *byte);
        }
    }

    /// Writes the CMAC of the pieces joined (SP 800-38B, section 6.2).
    pub fn finish(self, schedule: &Schedule, out: &mut [u8; 16])
        requires { 0 < schedule.now.rounds }
        ensures { (key text : List ℕ) → IsExpanded schedule.now key → HoldsText self key text
            → out.new ≡ cmac key text }
    {
        let CmacStream { mut block, used } = self;
        *out = block;
        let mut first = [0; 16];
        let mut second = [0; 16];
        subkeys(schedule, &mut first, &mut second);
        if used >= BLOCK {
            xor_into(out, &first);
        } else {
            out[used] ^= PADDING;
            xor_into(out, &second);
        }
        schedule.encrypt(out);
        wipe(&mut first);
        wipe(&mut second);
        wipe(&mut block);
    }

    // Takes one byte of the text.
    #[inline(always)]
    fn take_byte(&mut self, schedule: &Schedule, byte: u8)
        requires { 0 < schedule.now.rounds }
        ensures { (key text : List ℕ) → IsExpanded schedule.now key → HoldsText self.old key text
            → HoldsText self.new key (text ++ byte ∷ []) }
    {
        if self.used >= BLOCK {
            schedule.encrypt(&mut self.block);
            self.used = 0;
        }
        self.block[self.used] ^= byte;
        self.used += 1;
    }
}

/// Writes the CMAC of a text of any length under the key that was expanded (SP 800-38B, section 6.2).
pub fn cmac(schedule: &Schedule, text: &[u8], out: &mut [u8; 16])
    requires { 0 < schedule.now.rounds }
    ensures { (key : List ℕ) → IsExpanded schedule.now key → out.new ≡ cmac key text.now }
{
    let mut stream = CmacStream::new(schedule);
    stream.update(schedule, text);
    stream.finish(schedule, out);
}
