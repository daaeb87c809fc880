// A sink that nobody hears.
ghost use Rattle.std.specs.Prelude.{None};

use outside::{Failed, Sink};

/// Takes all bytes and keeps none.
#[derive(Drop)]
pub struct Unheard;

impl Sink for Unheard {
    ghost gained = { λ _. None };

    ghost faults = { λ _. 0 };

    fn write(&mut self, piece: &[u8]) -> Result<usize, Failed> {
        Ok(piece.len())
    }
}
