//! The bytes of a reply, in a buffer that is taken once.
ghost use Rattle.std.specs.Prelude.{◌≡◌, ◌≤◌, ◌+◌, ◌-◌, ◌++◌, [], length, take, drop, IfOk};
ghost use Rattle.bits_core.specs.ByteList.{zeros};
ghost use Rattle.bits_core.specs.OutboxContents.{holding};

use crate::wipe;
use std::alloc::{AllocError, Global};
use std::marker::Model;

/// A buffer of a fixed room that holds some bytes and zeros after them. Contracts see the bytes, the
/// room and the unused part.
#[derive(Drop)]
pub struct Outbox {
    buffer: Vec<u8>,
    used: usize,
    /// Where the buffer stands. No call moves it, so no block is given back that bytes were put into.
    block: *const u8,
}

impl Model for Outbox {
    ghost use Rattle.std.specs.Prelude.{◌≡◌, ◌≤◌, ◌-◌, length, take, drop};
    ghost use Rattle.std.specs.Vec.{vec_ptr};
    ghost use Rattle.bits_core.specs.OutboxContents.{OutboxContents};
    ghost use Rattle.bits_core.specs.ByteList.{zeros};

    ghost Value = { OutboxContents };

    ghost view = { λ a. record { bytes = take a.used a.buffer.items; room = length a.buffer.items; unused = drop a.used a.buffer.items } };

    ghost invariant = { λ a. (a.used ≤ length a.buffer.items) × (drop a.used a.buffer.items ≡ zeros (length a.buffer.items - a.used)) × (vec_ptr a.buffer ≡ a.block) };
}

impl Outbox {
    /// An empty outbox with room for `room` bytes.
    pub fn new(alloc: Global, room: usize) -> Result<Outbox, AllocError>
        ensures { IfOk result (λ outbox. outbox ≡ holding [] room) }
    {
        let buffer = vec![in alloc; 0; room]?;
        let block = buffer.as_ptr();
        Ok(Outbox {
            buffer,
            used: 0,
            block,
        })
    }

    /// The bytes that were put.
    pub fn bytes(&self) -> &[u8]
        ensures bytes { result.now ≡ self.now.bytes }
        ensures within { length self.now.bytes ≤ self.now.room }
        ensures unused_zero { self.now ≡ holding self.now.bytes self.now.room }
    {
        &self.buffer[..self.used]
    }

    /// How many bytes it can hold.
    pub fn room(&self) -> usize
        ensures { result ≡ self.now.room }
    {
        self.buffer.len()
    }

    /// Removes the bytes and makes the whole buffer zero, in the block where it stands.
    pub fn clear(&mut self)
        ensures { self.new ≡ holding [] self.old.room }
    {
        zero_front(&mut self.buffer, self.used);
        self.used = 0;
    }

    /// Appends bytes. Only a port calls it.
    pub(crate) fn put(&mut self, piece: &[u8])
        requires { length self.old.bytes + length piece.now ≤ self.old.room }
        ensures { self.new ≡ holding (self.old.bytes ++ piece.now) self.old.room }
    {
        write_at(&mut self.buffer, self.used, piece);
        self.used += piece.len();
    }
}

/// Makes the first `count` bytes zero, where the rest is.
fn zero_front(buffer: &mut [u8], count: usize)
    requires within { count ≤ length buffer.old }
    requires rest { drop count buffer.old ≡ zeros (length buffer.old - count) }
    ensures { buffer.new ≡ zeros (length buffer.old) }
{
    wipe(&mut buffer[..count]);
}

/// Writes a piece from place `at` on.
fn write_at(buffer: &mut [u8], at: usize, piece: &[u8])
    requires { at + length piece.now ≤ length buffer.old }
    ensures same_length { length buffer.new ≡ length buffer.old }
    ensures written { take (at + length piece.now) buffer.new ≡ take at buffer.old ++ piece.now }
    ensures rest { drop (at + length piece.now) buffer.new ≡ drop (at + length piece.now) buffer.old }
{
    buffer[at..at + piece.len()].copy_from_slice(piece);
}
