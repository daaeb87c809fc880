// A parameter that is being entered.
ghost use Rattle.std.specs.Prelude.{◌≡◌, ◌≤◌, ◌+◌, length};
ghost use Rattle.state_model.specs.Entries.{no_entry, begun_entry, with_piece, entry_length};

use bits_core::{Header, SlotId, wipe};

/// What an entered parameter is for: a slot, what the slot will tell of it, and how many bytes it has.
#[derive(Clone, Copy, Debug, PartialEq, Eq)]
pub struct Target {
    pub slot: SlotId,
    pub header: Header,
    pub length: usize,
}

/// A parameter that is being entered, and nothing where none is. It is neither copied nor printed.
#[derive(Drop)]
pub struct Entry {
    pub target: Option<Target>,
    /// How many bytes are there.
    pub filled: usize,
    pub bytes: [u8; 64],
}

impl Entry {
    /// No parameter is being entered.
    pub fn empty() -> Entry
        ensures { result ≡ no_entry }
    {
        Entry {
            target: None,
            filled: 0,
            bytes: [0; 64],
        }
    }

    /// How many bytes the parameter has, 0 where none is being entered.
    pub fn length(&self) -> usize
        ensures { result ≡ entry_length self.now }
    {
        match &self.target {
            Some(target) => target.length,
            None => 0,
        }
    }

    /// Begins anew, with no byte of what was there.
    pub fn begin(&mut self, target: Target)
        ensures { self.new ≡ begun_entry target }
    {
        self.clear();
        self.target = Some(target);
    }

    /// Appends a piece, for which there is room.
    pub fn append(&mut self, piece: &[u8])
        requires { self.old.filled + length piece.now ≤ 64 }
        ensures { self.new ≡ with_piece self.old piece.now }
    {
        let end = self.filled + piece.len();
        self.bytes[self.filled..end].copy_from_slice(piece);
        self.filled = end;
    }

    /// Makes all of it zero.
    pub fn clear(&mut self)
        ensures { self.new ≡ no_entry }
    {
        wipe(&mut self.bytes);
        self.target = None;
        self.filled = 0;
    }
}
