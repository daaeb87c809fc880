//! The port through which a service reaches its reply. An inhibited one has no call that adds bytes.
ghost use Rattle.std.specs.Prelude.{◌≡◌, ◌≤◌, ◌+◌, ◌++◌, [], length};
ghost use Rattle.bits_core.specs.OutboxContents.{holding};

use crate::Outbox;
use std::marker::PhantomData;

/// Marks a port that adds nothing.
#[derive(Drop)]
pub struct Inhibited;

/// Marks a port that adds bytes.
#[derive(Drop)]
pub struct Enabled;

/// An outbox that a service was lent, with the marker of what it may do there.
pub struct Port<'a, P> {
    outbox: &'a mut Outbox,
    marker: PhantomData<P>,
}

impl<'a, P> Port<'a, P> {
    /// A port over an outbox, which it clears.
    pub fn over(outbox: &'a mut Outbox) -> Port<'a, P>
        ensures same { result.outbox.ghost_name ≡ outbox.entry.ghost_name }
        ensures cleared { result.outbox.now ≡ holding [] outbox.old.room }
    {
        outbox.clear();
        Port {
            outbox,
            marker: PhantomData,
        }
    }
}

impl<'a> Port<'a, Enabled> {
    /// Appends bytes, which fit the room.
    pub fn put(&mut self, piece: &[u8])
        requires { length self.old.outbox.now.bytes + length piece.now ≤ self.old.outbox.now.room }
        ensures same { self.new.outbox.ghost_name ≡ self.old.outbox.ghost_name }
        ensures put { self.new.outbox.now ≡ holding (self.old.outbox.now.bytes ++ piece.now) self.old.outbox.now.room }
    {
        self.outbox.put(piece);
    }
}

impl<P> Drop for Port<'_, P> {
    fn drop(self)
        ensures { self.exit.0.now ≡ self.entry.outbox.now }
    {
        let Port {
            outbox: _,
            marker: _,
        } = self;
    }
}
