// The leftmost bytes of an engine's output.
ghost use Rattle.std.specs.Prelude.{◌≡◌, ◌≤◌, ◌+◌, ◌++◌, length, take};
ghost use Rattle.bits_core.specs.OutboxContents.{holding};
ghost use Rattle.crypto_services.specs.Services.{is_leftmost};

use bits_core::{Enabled, Port, same};

/// Puts the first `count` bytes of an engine's output.
pub(crate) fn put_leftmost(port: &mut Port<'_, Enabled>, whole: &[u8; 64], count: usize)
    requires most { count ≤ 64 }
    requires room { length port.old.outbox.now.bytes + count ≤ port.old.outbox.now.room }
    ensures same { port.new.outbox.ghost_name ≡ port.old.outbox.ghost_name }
    ensures put { port.new.outbox.now ≡ holding (port.old.outbox.now.bytes ++ take count whole.now) port.old.outbox.now.room }
{
    port.put(&whole[..count]);
}

/// Whether a tag is the leftmost part of an engine's output.
pub(crate) fn has_leftmost(whole: &[u8; 64], tag: &[u8]) -> bool
    requires { length tag.now ≤ 64 }
    ensures { result ≡ is_leftmost tag.now whole.now }
{
    same(tag, &whole[..tag.len()])
}
