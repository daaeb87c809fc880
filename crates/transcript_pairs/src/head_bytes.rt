// The first bytes of a reply's frame, gathered from pieces.
ghost use Rattle.std.specs.Prelude.{◌≡◌, ◌≤◌, ◌-◌, ◌++◌, [], length, take, min};

use std::marker::Model;

// Up to 28 bytes. Contracts see those that came.
#[derive(Drop)]
pub struct HeadBytes {
    bytes: [u8; 28],
    count: usize,
}

impl Model for HeadBytes {
    ghost use Rattle.std.specs.Prelude.{ℕ, List, ◌≤◌, ◌≡◌, length, take};

    ghost Value = { List ℕ };

    ghost view = { λ a. take a.count a.bytes };

    ghost invariant = { λ a. (a.count ≤ 28) × (length a.bytes ≡ 28) };
}

impl HeadBytes {
    pub fn new() -> HeadBytes
        ensures { result ≡ [] }
    {
        HeadBytes {
            bytes: [0; 28],
            count: 0,
        }
    }

    // Those that came.
    pub fn bytes(&self) -> &[u8]
        ensures { result.now ≡ self.now }
    {
        &self.bytes[..self.count]
    }

    // Takes bytes from the front of the piece, up to so many in all, and says how many.
    pub fn fill(&mut self, size: usize, piece: &[u8]) -> usize
        requires within { length self.old ≤ size }
        requires fits { size ≤ 28 }
        ensures taken { result ≡ min (size - length self.old) (length piece.now) }
        ensures held { self.new ≡ self.old ++ take result piece.now }
    {
        let taken = piece.len().min(size - self.count);
        self.bytes[self.count..self.count + taken].copy_from_slice(&piece[..taken]);
        self.count += taken;
        taken
    }

    // Forgets them.
    pub fn clear(&mut self)
        ensures { self.new ≡ [] }
    {
        self.count = 0;
    }
}
