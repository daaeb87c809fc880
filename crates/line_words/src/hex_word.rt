//! A word of bytes whose form was read.
ghost use Rattle.std.specs.Prelude.{◌≡◌, ◌≤◌, ◌*◌, Some, IfSome, ℕ, List, length};
ghost use Rattle.line_words.specs.Bytes.{bytes_of};
ghost use Rattle.line_words.specs.HexWords.{spelled};

use crate::bytes::{bytes_length, read_bytes};
use std::marker::Model;

/// A word that spells bytes, which are decoded where they are needed. Contracts see the bytes.
#[derive(Drop)]
pub struct HexWord<'a> {
    word: &'a [u8],
    count: usize,
}

impl<'a> Model for HexWord<'a> {
    ghost Value = { List ℕ };

    ghost view = { λ w. spelled w.word.now };

    ghost invariant = { λ w. (bytes_of w.word.now ≡ Some (spelled w.word.now)) × (w.count ≡ length (spelled w.word.now)) };
}

impl<'a> HexWord<'a> {
    /// The bytes that a word spells, if it spells any: an even number of hex digits of either case, at least two, or a hyphen for no
    /// byte.
    pub fn read(word: &'a [u8]) -> Option<HexWord<'a>>
        ensures bytes { result ≡ bytes_of word.now }
        ensures short { IfSome result (λ bytes. 2 * length bytes ≤ length word.now) }
    {
        match bytes_length(word) {
            Some(count) => Some(HexWord { word, count }),
            None => None,
        }
    }

    /// The number of bytes.
    pub fn len(&self) -> usize
        ensures { result ≡ length self.now }
    {
        self.count
    }

    /// Writes the bytes. `out` has just as many.
    pub fn decode(&self, out: &mut [u8])
        requires { length out.old ≡ length self.now }
        ensures { out.new ≡ self.now }
    {
        read_bytes(self.word, out);
    }
}
